//! Paths under `/harbor/`, which `matchit` matches.
ghost use Rattle.std.specs.Prelude.{◌≡◌, IfOk, IfErr, option_map};
ghost use Rattle.hb_routes.specs.Resources.{control_resource};
ghost use Rattle.hb_routes.specs.ControlRows.{control_rows};
ghost use Rattle.hb_routes.specs.Meanings.{meaning_of};

use crate::resources::Resource;
use matchit::{InsertError, Router as Matcher};
use std::alloc::Global;

/// The patterns of control paths.
#[derive(Clone, Copy, PartialEq, Eq)]
pub enum Control {
    Project,
    Rules,
    Jobs,
    Job,
}

/// Matches control paths. It fails for want of memory alone: its patterns are well formed and don't conflict.
pub fn control_matcher(alloc: Global) -> Result<Matcher<Control>, InsertError>
    ensures rows { IfOk result (λ made. made ≡ control_rows) }
    ensures memory { IfErr result (λ fault. fault ≡ InsertError.OutOfMemory) }
{
    let mut matcher = Matcher::new(alloc);
    matcher.insert("/harbor/projects/{name}", Control::Project)?;
    matcher.insert("/harbor/projects/{name}/rules", Control::Rules)?;
    matcher.insert("/harbor/jobs", Control::Jobs)?;
    matcher.insert("/harbor/jobs/{job}", Control::Job)?;
    Ok(matcher)
}

/// What a path that isn't under `/v2/` names.
pub fn control_resource<'a>(matcher: &Matcher<Control>, path: &'a [u8]) -> Option<Resource<'a>>
    requires { matcher.now ≡ control_rows }
    ensures { option_map meaning_of result ≡ control_resource path.now }
{
    let Ok(text) = str::from_utf8(path) else {
        return None;
    };
    match matcher.at(text) {
        Ok(found) => match found.value {
            Control::Project => {
                let name = found.params.get("name")?.as_bytes();
                Some(Resource::Project { name })
            }
            Control::Rules => {
                let name = found.params.get("name")?.as_bytes();
                Some(Resource::Rules { name })
            }
            Control::Jobs => Some(Resource::Jobs),
            Control::Job => {
                let id = found.params.get("job")?.as_bytes();
                Some(Resource::Job { id })
            }
        },
        Err(_) => None,
    }
}
