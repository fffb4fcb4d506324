// The rules that a message keeps.
ghost use Rattle.std.specs.Prelude.{◌≡◌};
ghost use Rattle.messages.specs.Rules.{fit_writer, fit_version, is_blank, all_blank, fit_drafts, fit_shown, fit_conflict, fit_body, valid};

use super::{Body, Conflict, Draft, Drafts, LINES, Message, TRANSACTIONS};
use clocks::{TOWERS, Version};

fn fits_writer(origin: u8, writer: u16) -> bool
    ensures { result ≡ fit_writer origin writer }
{
    (origin as usize) < TOWERS && writer < TRANSACTIONS
}

fn fits_version(origin: u8, writer: u16, number: u32) -> bool
    ensures { result ≡ fit_version origin writer number }
{
    fits_writer(origin, writer) && 1 <= number
}

fn is_blank(draft: &Draft) -> bool
    ensures { result ≡ is_blank draft.now }
{
    *draft == Draft::default()
}

fn all_blank(drafts: &[Draft]) -> bool
    ensures { result ≡ all_blank drafts.now }
{
    drafts.iter().all(is_blank)
}

fn fits_drafts(drafts: &Drafts) -> bool
    ensures { result ≡ fit_drafts drafts.now }
{
    let n = drafts.len as usize;
    n <= LINES && all_blank(&drafts.items[n..])
}

fn fits_shown(shown: &Option<Version>) -> bool
    ensures { result ≡ fit_shown shown.now }
{
    shown.is_none_or(|version| fits_version(version.origin, version.writer, version.number))
}

fn fits_conflict(conflict: &Conflict) -> bool
    ensures { result ≡ fit_conflict conflict.now }
{
    match conflict {
        Conflict::Held { origin, writer } => fits_writer(*origin, *writer),
        Conflict::Newer {
            origin,
            writer,
            number,
        } => fits_version(*origin, *writer, *number),
        Conflict::Full => true,
    }
}

fn fits_body(body: &Body) -> bool
    ensures { result ≡ fit_body body.now }
{
    match body {
        Body::Answer { shown, .. } => fits_shown(shown),
        Body::Prepare(drafts) => 1 <= drafts.len && fits_drafts(drafts),
        Body::Vote {
            against: Some(objection),
        } => fits_conflict(&objection.conflict),
        Body::Outcome {
            granted: Some(grant),
        } => 1 <= grant.number && fits_drafts(&grant.drafts),
        Body::Query { .. } | Body::Vote { against: None } | Body::Outcome { granted: None } => true,
    }
}

impl Message {
    // Whether the message keeps the rules, and so has a frame.
    #[tactic(auto, unfolding(crate::specs::Rules::valid))]
    pub fn is_valid(&self) -> bool
        ensures { result ≡ valid self.now }
    {
        (self.sender as usize) < TOWERS
            && (self.receiver as usize) < TOWERS
            && self.tx < TRANSACTIONS
            && fits_body(&self.body)
    }
}
