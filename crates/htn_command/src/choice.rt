//! Words of which an option takes one.
ghost use Rattle.std.specs.Prelude.{◌≡◌};
ghost use Rattle.htn_command.specs.CommandLine as line;

use diagnostics::Format;

/// How the picture of a plan is drawn.
#[derive(Clone, Copy, Debug, PartialEq, Eq)]
pub enum Drawing {
    /// As text, with the signs of trees.
    Text,
    /// As text in ASCII.
    Ascii,
    /// As one object of JSON.
    Json,
    /// In the language of graphviz.
    Dot,
    /// As SVG.
    Svg,
    /// As a page of HTML.
    Html,
}

/// When a report has colours.
#[derive(Clone, Copy, Debug, PartialEq, Eq)]
pub enum Colour {
    /// Where the output is a terminal that wants them.
    Auto,
    Always,
    Never,
}

/// The format that a word names.
pub(crate) fn format_named(word: &str) -> Option<Format>
    ensures { result ≡ line.format_named word.now }
{
    if word == "text" {
        return Some(Format::Text);
    }
    if word == "short" {
        return Some(Format::Short);
    }
    if word == "json" {
        return Some(Format::Json);
    }
    None
}

/// The drawing that a word names.
pub(crate) fn drawing_named(word: &str) -> Option<Drawing>
    ensures { result ≡ line.drawing_named word.now }
{
    if word == "text" {
        return Some(Drawing::Text);
    }
    if word == "ascii" {
        return Some(Drawing::Ascii);
    }
    if word == "json" {
        return Some(Drawing::Json);
    }
    if word == "dot" {
        return Some(Drawing::Dot);
    }
    if word == "svg" {
        return Some(Drawing::Svg);
    }
    if word == "html" {
        return Some(Drawing::Html);
    }
    None
}

/// When colours are written, by a word.
pub(crate) fn colour_named(word: &str) -> Option<Colour>
    ensures { result ≡ line.colour_named word.now }
{
    if word == "auto" {
        return Some(Colour::Auto);
    }
    if word == "always" {
        return Some(Colour::Always);
    }
    if word == "never" {
        return Some(Colour::Never);
    }
    None
}

/// Whether a flag is there, by the word that stands for it.
pub(crate) fn flag_named(word: &str) -> Option<bool>
    ensures { result ≡ line.flag_named word.now }
{
    if word == "true" {
        return Some(true);
    }
    if word == "false" {
        return Some(false);
    }
    None
}
