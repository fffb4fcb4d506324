// The one fault type of the product. Every layer answers with it, and a fault goes up through the layers unchanged.
#![tactic(auto)]

ghost use Rattle.std.specs.Prelude.{◌≡◌, Some};
ghost use Rattle.faults.specs.Table.{row_of, layer_word, plain};
ghost use Rattle.faults.specs.Text.{fault_text};

use std::error::Error;
use std::fmt;

// The part of the product that found the fault.
#[derive(Clone, Copy)]
pub enum Layer {
    Net,
    Frame,
    Script,
    Book,
}

// What was wrong, by the number of the fault. Two causes have the word `field`: a frame's and a script's.
#[derive(Clone, Copy, Debug)]
pub enum Cause {
    Tower = 1,
    Unknown = 2,
    Key = 3,
    Phase = 4,
    Full = 5,
    Drafts = 6,
    Air = 7,
    Message = 8,
    Early = 9,
    List = 10,
    Opening = 11,
    Length = 20,
    Kind = 21,
    FrameField = 22,
    Call = 30,
    ScriptField = 31,
    Number = 32,
    Order = 33,
    Size = 34,
    Shape = 40,
    BookKey = 41,
    Index = 42,
    Depth = 43,
}

// A fault: its cause, and the place where it was found. Only faults of a script's fields have a place other than 0.
#[derive(Clone, Copy, Debug)]
pub struct Fault {
    pub cause: Cause,
    pub at: u32,
}

impl Layer {
    // The word that is printed for the layer.
    pub fn word(self) -> &'static str
        ensures { result.now ≡ layer_word self }
    {
        match self {
            Layer::Net => "net",
            Layer::Frame => "frame",
            Layer::Script => "script",
            Layer::Book => "book",
        }
    }
}

// A layer as it is printed.
impl fmt::Display for Layer {
    ghost output = { λ l. Some (layer_word l) };

    fn fmt<W: fmt::Write>(&self, f: &mut fmt::Formatter<W>) -> fmt::Result {
        f.write_str(self.word())
    }
}

impl Cause {
    // What the table has for the cause: its layer and its word.
    fn row(self) -> (Layer, &'static str)
        ensures { (result.0 ≡ (row_of self).layer) × (result.1.now ≡ (row_of self).word) }
    {
        match self {
            Cause::Tower => (Layer::Net, "tower"),
            Cause::Unknown => (Layer::Net, "unknown"),
            Cause::Key => (Layer::Net, "key"),
            Cause::Phase => (Layer::Net, "phase"),
            Cause::Full => (Layer::Net, "full"),
            Cause::Drafts => (Layer::Net, "drafts"),
            Cause::Air => (Layer::Net, "air"),
            Cause::Message => (Layer::Net, "message"),
            Cause::Early => (Layer::Net, "early"),
            Cause::List => (Layer::Net, "list"),
            Cause::Opening => (Layer::Net, "opening"),
            Cause::Length => (Layer::Frame, "length"),
            Cause::Kind => (Layer::Frame, "kind"),
            Cause::FrameField => (Layer::Frame, "field"),
            Cause::Call => (Layer::Script, "call"),
            Cause::ScriptField => (Layer::Script, "field"),
            Cause::Number => (Layer::Script, "number"),
            Cause::Order => (Layer::Script, "order"),
            Cause::Size => (Layer::Script, "size"),
            Cause::Shape => (Layer::Book, "shape"),
            Cause::BookKey => (Layer::Book, "bookkey"),
            Cause::Index => (Layer::Book, "index"),
            Cause::Depth => (Layer::Book, "depth"),
        }
    }

    pub fn number(self) -> u8
        ensures { result ≡ (row_of self).number }
    {
        self as u8
    }

    pub fn layer(self) -> Layer
        ensures { result ≡ (row_of self).layer }
    {
        let (layer, _) = self.row();
        layer
    }

    pub fn word(self) -> &'static str
        ensures { result.now ≡ (row_of self).word }
    {
        let (_, word) = self.row();
        word
    }
}

// A cause as it is printed.
impl fmt::Display for Cause {
    ghost output = { λ c. Some (row_of c).word };

    fn fmt<W: fmt::Write>(&self, f: &mut fmt::Formatter<W>) -> fmt::Result {
        let (_, word) = self.row();
        f.write_str(word)
    }
}

// A fault that has no place of its own.
impl From<Cause> for Fault {
    ghost from_gives = { λ c f. f ≡ plain c };

    fn from(cause: Cause) -> Fault {
        Fault { cause, at: 0 }
    }
}

// A fault as it is printed.
impl fmt::Display for Fault {
    ghost output = { λ f. Some (fault_text f) };

    fn fmt<W: fmt::Write>(&self, f: &mut fmt::Formatter<W>) -> fmt::Result {
        let Fault { cause, at } = self;
        let layer = cause.layer();
        let number = cause.number();
        write!(f, "layer={layer} fault={number} at={at} word={cause}")
    }
}

impl Error for Fault {}
