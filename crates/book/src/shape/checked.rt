ghost use Rattle.std.specs.Prelude.{◌≡◌};
ghost use Rattle.book.specs.Shapes.{Shaped, places};

use super::{MAX_DEPTH, MAX_KEYS, Shape};
use faults::{Cause, Fault};

impl Shape {
    // The shape of a book over memory of that many places: refused unless both numbers are from 1 to their limit,
    // and there is a place for each version that the book can hold, and no more.
    pub fn new(keys: usize, depth: usize, places: usize) -> Result<Shape, Fault>
        ensures { Shaped keys depth places result }
    {
        let fits = (1..=MAX_KEYS).contains(&keys)
            && (1..=MAX_DEPTH).contains(&depth)
            && places == keys * depth;
        if !fits {
            return Err(Cause::Shape.into());
        }
        Ok(Shape { keys, depth })
    }

    // How many versions a book of this shape has a place for.
    pub fn places(&self) -> usize
        ensures { result ≡ places self.now }
    {
        self.keys * self.depth
    }
}
