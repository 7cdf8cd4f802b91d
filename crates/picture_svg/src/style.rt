//! How an SVG picture looks.

ghost use Rattle.std.specs.Prelude.{◌≡◌, ◌++◌, OnOk};
ghost use Rattle.picture_svg.specs.Style as spec;

use std::alloc::AllocError;

/// Its colours.
fn say_day(out: &mut Vec<u8>) -> Result<(), AllocError>
    ensures { OnOk result (out.new.items ≡ out.old.items ++ spec.day) }
{
    out.extend_from_slice(
        b"<style>\n.t{--bg:#fff;--ink:#1e293b;--dim:#64748b;--line:#cbd5e1;--task:#eef2ff;--task-line:#c7d2fe;\n",
    )?;
    out.extend_from_slice(
        b"--act:#ecfdf5;--act-line:#6ee7b7;--no:#047857;--bad:#dc2626;--bad-bg:#fef2f2}\n",
    )
}

/// Its colours by night.
fn say_night(out: &mut Vec<u8>) -> Result<(), AllocError>
    ensures { OnOk result (out.new.items ≡ out.old.items ++ spec.night) }
{
    out.extend_from_slice(
        b"@media (prefers-color-scheme:dark){.t{--bg:#0f172a;--ink:#e2e8f0;--dim:#94a3b8;--line:#475569;\n",
    )?;
    out.extend_from_slice(
        b"--task:#1e2546;--task-line:#4152a8;--act:#0d2f28;--act-line:#0f766e;--no:#6ee7b7;\n",
    )?;
    out.extend_from_slice(b"--bad:#f87171;--bad-bg:#3b1219}}\n")
}

/// Its letters.
fn say_letters(out: &mut Vec<u8>) -> Result<(), AllocError>
    ensures { OnOk result (out.new.items ≡ out.old.items ++ spec.letters) }
{
    out.extend_from_slice(
        b".t text{fill:var(--ink);font:12px ui-monospace,SFMono-Regular,Menlo,Consolas,\n",
    )?;
    out.extend_from_slice(b"\"DejaVu Sans Mono\",\"Liberation Mono\",monospace}\n")?;
    out.extend_from_slice(b".t .n{font-weight:600}.t .m{fill:var(--dim);font-size:10.5px}")?;
    out.extend_from_slice(b".t .no{fill:var(--no);font-weight:700;text-anchor:end}\n")
}

/// Its lines and boxes.
fn say_boxes(out: &mut Vec<u8>) -> Result<(), AllocError>
    ensures { OnOk result (out.new.items ≡ out.old.items ++ spec.boxes) }
{
    out.extend_from_slice(
        b".t .bg{fill:var(--bg)}.t path{fill:none;stroke:var(--line);stroke-width:1.5}\n",
    )?;
    out.extend_from_slice(
        b".t .root{fill:none;stroke:var(--line)}.t .task{fill:var(--task);stroke:var(--task-line)}\n",
    )?;
    out.extend_from_slice(
        b".t .act{fill:var(--act);stroke:var(--act-line)}.t g:hover rect{stroke:var(--dim);stroke-width:2}\n",
    )?;
    out.extend_from_slice(
        b".t .bad{fill:var(--bad-bg);stroke:var(--bad);stroke-width:2}.t .bad~.no{fill:var(--bad)}\n</style>\n",
    )
}

/// All of it.
pub(crate) fn say_style(out: &mut Vec<u8>) -> Result<(), AllocError>
    ensures { OnOk result (out.new.items ≡ out.old.items ++ spec.style) }
{
    say_day(out)?;
    say_night(out)?;
    say_letters(out)?;
    say_boxes(out)
}
