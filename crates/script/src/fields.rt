// A line that is read from the left, field by field.
ghost use Rattle.std.specs.Prelude.{◌≤◌, length};
ghost use Rattle.script.specs.Limits.{text_limit};

mod calls;
mod take;

// A line, and the place from which it is still to be read: past its end no field is left, but an empty last field counts.
// A lent text with a place, as of a script in `Reader`: a rule of the project.
#[derive(Drop)]
pub(crate) struct Fields<'a> {
    line: &'a [u8],
    at: usize,
    ghost short: { length line.now ≤ text_limit },
}
