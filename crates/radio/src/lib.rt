// The frames in the air of a run.
#![tactic(auto)]

ghost use Rattle.radio.specs.Air.{AirOfFrames};

// Every frame in the air of a run is the one frame of a message and reads back as that message, and the laws hold.
// A function for a theorem, whose name it is cited by.
#[tactic(auto, using(crate::proofs::Back::air_of_frames))]
pub fn air_of_frames()
    ensures { AirOfFrames }
{}
