mod impls;

// Lent memory, of which the first `len` places are taken. A length past the end of the memory counts as the end.
// A slice with a length beside it, and no `Vec`: a rule of the project needs it, that memory is fixed or lent.
// No invariant in the type: today's check does not cover a caller that takes a tray by value and changes it, where its type has one.
#[derive(Drop)]
pub struct Tray<'a, T> {
    items: &'a mut [T],
    len: usize,
}
