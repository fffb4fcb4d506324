// The laws of a net: what holds of every run of calls, and of what the net then holds.
// Each law is promised by a function of its own, whose name it is cited by; one function for all would be no plainer.
#![tactic(auto)]

ghost use Rattle.laws.specs.Laws.{LawsStand};
ghost use Rattle.laws.specs.Examples.{Examples};
ghost use Rattle.laws.specs.Frames.{NumbersInRange, FramesCarry};
ghost use Rattle.laws.specs.Further.{Always, EveryCallAnswered, AnswersDetermined, HeldOnce, WithinCapacity, RecordsAgree, CausallyClosed, Accounted, VersionsWithinClock, ClosingAwaits, FindsRoom, OwnTowerSeen, MessagesAtHome};

// The laws hold of every history, and of what the net then holds.
#[tactic(auto, using(crate::proofs::Lawful::laws_stand))]
pub fn laws_stand()
    ensures { LawsStand }
{}

// A clock or a bound that has a transaction has all that the transaction had within its bound.
#[tactic(auto, using(crate::proofs::Further::causally_closed))]
pub fn causally_closed()
    ensures { Always CausallyClosed }
{}

// A tower lacks a placed transaction exactly while its outcome to that tower is in the air.
#[tactic(auto, using(crate::proofs::Further::clocks_accounted))]
pub fn clocks_accounted()
    ensures { Always Accounted }
{}

// Every version in a list is within the clock of the key's home.
#[tactic(auto, using(crate::proofs::Further::versions_within_clock))]
pub fn versions_within_clock()
    ensures { Always VersionsWithinClock }
{}

// A closing transaction awaits as many votes as it has prepares and votes in the air, and there is one.
#[tactic(auto, using(crate::proofs::Further::closing_awaits))]
pub fn closing_awaits()
    ensures { Always ClosingAwaits }
{}

// Taking in finds room in the lists.
#[tactic(auto, using(crate::proofs::Further::finds_room))]
pub fn finds_room()
    ensures { Always FindsRoom }
{}

// What its own tower had placed before a transaction began is within its bound.
#[tactic(auto, using(crate::proofs::Further::own_tower_seen))]
pub fn own_tower_seen()
    ensures { Always OwnTowerSeen }
{}

// Every message in the air has its transaction, which awaits it, and its towers.
#[tactic(auto, using(crate::proofs::Further::messages_at_home))]
pub fn messages_at_home()
    ensures { Always MessagesAtHome }
{}

// The examples: covering, being within a bound, what a reader is shown, ripeness, and two transactions alone.
#[tactic(auto, using(crate::proofs::Examples::examples))]
pub fn examples_stand()
    ensures { Examples }
{}

// Whatever the net holds or sends is in range.
#[tactic(auto, using(crate::proofs::Fits::numbers_in_range))]
pub fn numbers_in_range()
    ensures { Always NumbersInRange }
{}

// Every frame in the air reads back as its message.
#[tactic(auto, using(crate::proofs::Carry::frames_carry))]
pub fn frames_carry()
    ensures { FramesCarry }
{}

// Checks turn down what the tables have no place for.
#[tactic(auto, using(crate::proofs::Capacity::within_capacity))]
pub fn within_capacity()
    ensures { Always WithinCapacity }
{}

// A key is held once, so that a place for each key is enough.
#[tactic(auto, using(crate::proofs::Kept::held_once))]
pub fn held_once()
    ensures { Always HeldOnce }
{}

// The counts and the records say what the history tells.
#[tactic(auto, using(crate::proofs::Kept::records_agree))]
pub fn records_agree()
    ensures { Always RecordsAgree }
{}

// Whatever is called, there is something to tell.
pub fn every_call_answered()
    ensures { Always EveryCallAnswered }
{}

// A call tells one thing and does one thing, whatever the net holds.
#[tactic(auto, using(crate::proofs::Determined::answers_determined))]
pub fn answers_determined()
    ensures { AnswersDetermined }
{}
