// The table of the kinds: number, word, mark and lines of each message.
ghost use Rattle.std.specs.Prelude.{◌≡◌, ◌≤◌, [], ◌∷◌, map, length, Some};
ghost use Rattle.std.specs.Iterator.{YieldsFirst, item_count};
ghost use Rattle.std.specs.List.{slice_get};
ghost use Rattle.messages.specs.Drafting.{counted};
ghost use Rattle.messages.specs.Limits.{line_limit};
ghost use Rattle.messages.specs.Table.{kind_number, kind_named, kind_word, allows, kind_of, conflict_mark, mark_of, number_of, key_line, draft_line, draft_in, version_in, shown_line, conflict_line, lines_of, lines_left};
ghost use Rattle.messages.specs.Rules.{Places};

use super::{Body, Conflict, Draft, Drafts, Kind, LINES, Line, Lines, Objection};
use clocks::Version;
use faults::{Cause, Fault};
use std::fmt;

// The number of a kind.
impl From<Kind> for u8 {
    ghost from_gives = { λ kind number. number ≡ kind_number kind };

    fn from(kind: Kind) -> u8 {
        kind as u8
    }
}

// The kind that has a number; refused if none has it.
impl TryFrom<u8> for Kind {
    type Error = Fault;

    ghost try_from_gives = { λ number result. result ≡ kind_named number };

    fn try_from(number: u8) -> Result<Kind, Fault> {
        match number {
            1 => Ok(Kind::Query),
            2 => Ok(Kind::Answer),
            3 => Ok(Kind::Prepare),
            4 => Ok(Kind::Vote),
            5 => Ok(Kind::Outcome),
            _ => Err(Cause::Kind.into()),
        }
    }
}

// A kind as it is printed.
impl fmt::Display for Kind {
    ghost output = { λ kind. Some (kind_word kind) };

    fn fmt<W: fmt::Write>(&self, f: &mut fmt::Formatter<W>) -> fmt::Result {
        f.write_str(self.word())
    }
}

impl Kind {
    // The word that is printed for the kind.
    pub fn word(self) -> &'static str
        ensures { result.now ≡ kind_word self }
    {
        match self {
            Kind::Query => "query",
            Kind::Answer => "answer",
            Kind::Prepare => "prepare",
            Kind::Vote => "vote",
            Kind::Outcome => "outcome",
        }
    }

    // Whether messages of the kind may have n lines, whatever the mark.
    pub fn allows(self, n: usize) -> bool
        ensures { result ≡ allows self n }
    {
        match self {
            Kind::Query | Kind::Answer => n == 1,
            Kind::Prepare => 1 <= n && n <= LINES,
            Kind::Vote => n <= 1,
            Kind::Outcome => n <= LINES,
        }
    }
}

impl Conflict {
    // The number of the conflict; of several that a key has, a vote tells the lowest.
    // A number and no enum: it stands as such in frames and listings, and an enum would be turned into it at each place.
    pub fn mark(&self) -> u8
        ensures { result ≡ conflict_mark self.now }
    {
        match self {
            Conflict::Held { .. } => 1,
            Conflict::Newer { .. } => 2,
            Conflict::Full => 3,
        }
    }
}

// The line of a key alone.
fn key_line(key: u8) -> Line
    ensures { result ≡ key_line key }
{
    Line {
        key,
        ..Line::default()
    }
}

// The line of a draft.
impl From<&Draft> for Line {
    ghost from_gives = { λ draft line. line ≡ draft_line draft.now };

    fn from(draft: &Draft) -> Line {
        Line {
            key: draft.key,
            content: draft.content,
            ..Line::default()
        }
    }
}

// The draft whose line it is.
impl From<Line> for Draft {
    ghost from_gives = { λ line draft. draft ≡ draft_in line };

    fn from(line: Line) -> Draft {
        Draft {
            key: line.key,
            content: line.content,
        }
    }
}

// The version that the line shows.
impl From<&Line> for Version {
    ghost from_gives = { λ line version. version ≡ version_in line.now };

    fn from(line: &Line) -> Version {
        Version {
            writer: line.writer,
            origin: line.origin,
            number: line.number,
            content: line.content,
        }
    }
}

// The line of an answer. No `From`: a key and a version are no one value here.
fn shown_line(key: u8, shown: &Option<Version>) -> Line
    ensures { result ≡ shown_line key shown.now }
{
    match shown {
        Some(version) => Line {
            key,
            origin: version.origin,
            writer: version.writer,
            number: version.number,
            content: version.content,
        },
        None => key_line(key),
    }
}

// The line of what a vote has against a transaction.
impl From<&Objection> for Line {
    ghost from_gives = { λ objection line. line ≡ conflict_line objection.now.key objection.now.conflict };

    fn from(objection: &Objection) -> Line {
        let line = key_line(objection.key);
        match objection.conflict {
            Conflict::Held { origin, writer } => Line {
                origin,
                writer,
                ..line
            },
            Conflict::Newer {
                origin,
                writer,
                number,
            } => Line {
                origin,
                writer,
                number,
                ..line
            },
            Conflict::Full => line,
        }
    }
}

impl Body {
    pub fn kind(&self) -> Kind
        ensures { result ≡ kind_of self.now }
    {
        match self {
            Body::Query { .. } => Kind::Query,
            Body::Answer { .. } => Kind::Answer,
            Body::Prepare(_) => Kind::Prepare,
            Body::Vote { .. } => Kind::Vote,
            Body::Outcome { .. } => Kind::Outcome,
        }
    }

    // The mark, a number of the format as a conflict's is.
    pub fn mark(&self) -> u8
        ensures { result ≡ mark_of self.now }
    {
        match self {
            Body::Query { first, .. } => *first as u8,
            Body::Answer { shown: Some(_), .. } => 1,
            Body::Answer { shown: None, .. } => 0,
            Body::Prepare(_) => 0,
            Body::Vote {
                against: Some(objection),
            } => objection.conflict.mark(),
            Body::Vote { against: None } => 0,
            Body::Outcome { granted: Some(_) } => 1,
            Body::Outcome { granted: None } => 0,
        }
    }

    // The number of a granted outcome; other messages have 0 there.
    pub fn number(&self) -> u32
        ensures { result ≡ number_of self.now }
    {
        match self {
            Body::Outcome {
                granted: Some(grant),
            } => grant.number,
            _ => 0,
        }
    }

    // The lines, first to last.
    pub fn iter(&self) -> Lines<'_>
        ensures all { lines_left result ≡ lines_of self.now }
        ensures few { length (lines_of self.now) ≤ line_limit }
        ensures places { Places self.now }
    {
        match self {
            Body::Query { key, .. } => Lines::only(key_line(*key)),
            Body::Answer { key, shown } => Lines::only(shown_line(*key, shown)),
            Body::Prepare(drafts) => Lines::of(drafts),
            Body::Vote {
                against: Some(objection),
            } => Lines::only(objection.into()),
            Body::Outcome {
                granted: Some(grant),
            } => Lines::of(&grant.drafts),
            Body::Vote { against: None } | Body::Outcome { granted: None } => Lines::none(),
        }
    }

    // How many lines there are.
    pub fn lines(&self) -> usize
        ensures count { result ≡ length (lines_of self.now) }
        ensures few { result ≤ line_limit }
        ensures places { Places self.now }
    {
        self.iter().len()
    }

    // The line at an index from 0.
    pub fn line(&self, index: usize) -> Option<Line>
        ensures { result ≡ slice_get (lines_of self.now) index }
    {
        self.iter().get(index)
    }
}

impl<'a> Lines<'a> {
    fn none() -> Lines<'a>
        ensures { lines_left result ≡ [] }
    {
        Lines {
            only: None,
            drafts: &[],
        }
    }

    fn only(line: Line) -> Lines<'a>
        ensures { lines_left result ≡ line ∷ [] }
    {
        Lines {
            only: Some(line),
            drafts: &[],
        }
    }

    // How many there are, without making them.
    fn len(&self) -> usize
        ensures { result ≡ length (lines_left self.now) }
    {
        usize::from(self.only.is_some()) + self.drafts.len()
    }

    // The line at an index of them, without making those before it.
    fn get(&self, index: usize) -> Option<Line>
        ensures { result ≡ slice_get (lines_left self.now) index }
    {
        let Some(line) = self.only else {
            return self.drafts.get(index).map(Line::from);
        };
        match index.checked_sub(1) {
            Some(later) => self.drafts.get(later).map(Line::from),
            None => Some(line),
        }
    }

    // A line for each draft.
    fn of(drafts: &'a Drafts) -> Lines<'a>
        ensures all { lines_left result ≡ map draft_line (counted drafts.now) }
        ensures few { length (lines_left result) ≤ line_limit }
        ensures places { length drafts.now.items ≡ line_limit }
    {
        Lines {
            only: None,
            drafts: drafts.as_slice(),
        }
    }
}

impl Iterator for Lines<'_> {
    type Item = Line;

    ghost next_gives = { YieldsFirst lines_left };

    ghost remaining = { item_count lines_left };

    fn next(&mut self) -> Option<Line> {
        if let Some(line) = self.only.take() {
            return Some(line);
        }
        let (first, others) = self.drafts.split_first()?;
        self.drafts = others;
        Some(first.into())
    }
}
