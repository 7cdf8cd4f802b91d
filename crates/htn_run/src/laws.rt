//! A law on what requests show: a function with an empty body.
ghost use Rattle.std.specs.Prelude.{◌≡◌, ℕ, List, false};
ghost use Rattle.htn_command.specs.declared.request.Request.{Request};
ghost use Rattle.htn_run.specs.Files.{File};
ghost use Rattle.htn_run.specs.Requests.{ShowsFor, wants_progress};

use htn_plan::Out;

/// Nothing is shown on the error output while a request without `--progress` is run.
pub fn quiet_requests_show_nothing<E: Out>()
    ensures { (files : List ℕ → File) (request : Request) (old new : E) → wants_progress request ≡ false
        → ShowsFor E.contents E.has_failed files request old new → new ≡ old }
{}
