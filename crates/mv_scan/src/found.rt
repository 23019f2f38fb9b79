//! What is found where a form is looked for.
ghost use Rattle.std.specs.Prelude.{◌≡◌};
ghost use Rattle.mv_scan.specs.Found.{pair};

/// What a word, or several, are read as.
#[derive(Drop)]
pub enum Found<T> {
    /// Nothing of the form.
    Other,
    /// Something of the form, with a number out of its range.
    OutOfRange,
    /// This.
    Is(T),
}

/// Both, if there are both. What is of another form counts before what is out of range.
pub fn both<A: Drop, B: Drop>(first: Found<A>, second: Found<B>) -> Found<(A, B)>
    ensures { result ≡ pair first second }
{
    match (first, second) {
        (Found::Is(a), Found::Is(b)) => Found::Is((a, b)),
        (Found::Other, _) => Found::Other,
        (_, Found::Other) => Found::Other,
        _ => Found::OutOfRange,
    }
}
