ghost use Rattle.std.specs.Prelude.{◌≡◌, ◌≤◌, length, ⊤};

use std::alloc::AllocError;

mod methods;

// A table of at most N rows, of which the first `count` are taken. Tables are fixed, a rule of the project: their
// bounds are the subject's own, a run copies its table, and no script call may want memory. It is no `impl Model`
// seen as its list: a copied type needs the fields back from what is seen, and the list forgets the rows not taken.
pub struct Rows<T, const N: usize> {
    items: [T; N],
    count: usize,
    ghost ok: { (count ≤ N) × (length items ≡ N) },
}

// By hand: "`Clone` cannot be derived for a struct with a ghost field".
impl<T: Copy, const N: usize> Clone for Rows<T, N> {
    ghost is_clone = { λ x y. y ≡ x };

    ghost is_infallible = { λ _. ⊤ };

    fn clone(&self) -> Result<Rows<T, N>, AllocError> {
        Ok(*self)
    }
}

impl<T: Copy, const N: usize> Copy for Rows<T, N> {}
