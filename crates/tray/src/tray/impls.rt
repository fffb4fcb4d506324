ghost use Rattle.std.specs.Prelude.{◌≡◌, ◌-◌, ◌<◌, ◌≤◌, [], length, take, if◌then◌else◌, Bool, Ok, Err, filter, nat_lt, slice_set};
ghost use Rattle.std.specs.List.{remove, slice_get};
ghost use Rattle.tray.specs.Contents.{contents, room, full, pushed, place_from, Computes};

use super::Tray;

// Each call that changes a tray says in `space` that it keeps its room: this relates two trays, so no type can hold it.
impl<'a, T: Copy> Tray<'a, T> {
    // An empty tray over the memory.
    pub fn new(items: &'a mut [T]) -> Tray<'a, T>
        ensures empty { contents result ≡ [] }
        ensures space { room result ≡ length items.old }
    {
        Tray { items, len: 0 }
    }

    // How many places are taken.
    fn used(&self) -> usize
        ensures count { result ≡ length (contents self.now) }
        ensures within { result ≤ room self.now }
        ensures front { take result self.now.items.now ≡ contents self.now }
    {
        self.len.min(self.items.len())
    }

    pub fn len(&self) -> usize
        ensures { result ≡ length (contents self.now) }
    {
        self.used()
    }

    // How many elements have a place.
    pub fn capacity(&self) -> usize
        ensures { result ≡ room self.now }
    {
        self.items.len()
    }

    pub fn as_slice(&self) -> &[T]
        ensures { result.now ≡ contents self.now }
    {
        let n = self.used();
        let items = &*self.items;
        &items[..n]
    }

    // What stands at i, if anything does.
    pub fn get(&self, i: usize) -> Option<T>
        ensures { result ≡ slice_get (contents self.now) i }
    {
        self.as_slice().get(i).copied()
    }

    // Writes x over what stands at i, or hands it back where nothing stands there.
    pub fn set(&mut self, i: usize, x: T) -> Result<(), T>
        ensures value { result ≡ (if nat_lt i (length (contents self.old)) then Ok tt else Err x) }
        ensures after { contents self.new ≡ slice_set (contents self.old) i x }
        ensures space { room self.new ≡ room self.old }
    {
        // A test of i, since a slice's `get_mut` does not promise what a write through it leaves.
        if i < self.used() {
            self.items[i] = x;
            Ok(())
        } else {
            Err(x)
        }
    }

    // Puts x at the end, or hands it back where the tray is full.
    pub fn add(&mut self, x: T) -> Result<(), T>
        ensures value { result ≡ (if full self.old then Err x else Ok tt) }
        ensures after { contents self.new ≡ (if full self.old then contents self.old else pushed (contents self.old) x) }
        ensures space { room self.new ≡ room self.old }
    {
        let n = self.used();
        if n < self.items.len() {
            self.items[n] = x;
            self.len = n + 1;
            Ok(())
        } else {
            Err(x)
        }
    }

    // Takes out what stands at i, and moves what comes after it one place down.
    pub fn take_out(&mut self, i: usize) -> Option<T>
        ensures value { result ≡ slice_get (contents self.old) i }
        ensures after { contents self.new ≡ remove (contents self.old) i }
        ensures space { room self.new ≡ room self.old }
    {
        let x = self.get(i)?;
        let n = self.used();
        close_gap(self.items, n, i);
        self.len = n - 1;
        Some(x)
    }

    // Takes out everything.
    pub fn clear(&mut self)
        ensures after { contents self.new ≡ [] }
        ensures space { room self.new ≡ room self.old }
    {
        self.len = 0;
    }

    // Keeps what passes the rule, in its order, and takes out the rest.
    pub fn retain<F: Fn(&T) -> bool>(&mut self, rule: F)
        requires { F.IsAlwaysCallable rule }
        ensures after { (keeps : T → Bool) → Computes F.Fn rule keeps → contents self.new ≡ filter keeps (contents self.old) }
        ensures space { room self.new ≡ room self.old }
    {
        let n = self.used();
        self.len = sift(self.items, n, rule);
    }

    // The position of the first that passes the rule.
    pub fn find<F: Fn(&T) -> bool>(&self, rule: F) -> Option<usize>
        requires { F.IsAlwaysCallable rule }
        ensures { (keeps : T → Bool) → Computes F.Fn rule keeps → result ≡ place_from keeps 0 (contents self.now) }
    {
        first_passing(self.as_slice(), rule)
    }
}

// Moves those of the first n that come after i one place down.
fn close_gap<T: Copy>(items: &mut [T], n: usize, i: usize)
    requires inside { i < n }
    requires end { n ≤ length items.old }
    ensures { take (n - 1) items.new ≡ remove (take n items.old) i }
{
    items.copy_within(i + 1..n, i);
}

// Moves those of the first n that pass the rule to the front, and says how many they are.
// A loop, since it writes into the slice that it reads, and the library has no `retain` over a slice.
fn sift<T: Copy, F: Fn(&T) -> bool>(items: &mut [T], n: usize, rule: F) -> usize
    requires within { n ≤ length items.old }
    requires callable { F.IsAlwaysCallable rule }
    ensures front { (keeps : T → Bool) → Computes F.Fn rule keeps → take result items.new ≡ filter keeps (take n items.old) }
    ensures bound { result ≤ n }
{
    let mut passed = 0;
    for i in 0..n {
        let x = items[i];
        if rule(&x) {
            items[passed] = x;
            passed += 1;
        }
    }
    passed
}

// The position of the first of the items that passes the rule.
fn first_passing<T, F: Fn(&T) -> bool>(items: &[T], rule: F) -> Option<usize>
    requires { F.IsAlwaysCallable rule }
    ensures { (keeps : T → Bool) → Computes F.Fn rule keeps → result ≡ place_from keeps 0 items.now }
{
    items.iter().position(|x| rule(x))
}
