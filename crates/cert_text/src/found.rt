// What is found in the place of a field or a line.
ghost use Rattle.std.specs.Prelude.{◌≡◌};
ghost use Rattle.cert_text.specs.Found.{both};

/// What is wrong in a place: it is not spelled as it should be; or its number or amount is out of its range.
#[derive(Clone, Copy)]
pub enum Flaw {
    NotSpelled,
    Outside,
}

/// What is found in a place: a value, or what is wrong there.
pub type Found<T> = Result<T, Flaw>;

/// What is found in two places of one line: a wrong spelling in any comes before a range.
pub fn both<T: Copy, U: Copy>(x: Found<T>, y: Found<U>) -> Found<(T, U)>
    ensures { result ≡ both x y }
{
    match (x, y) {
        (Ok(x), Ok(y)) => Ok((x, y)),
        (Err(Flaw::NotSpelled), _) | (_, Err(Flaw::NotSpelled)) => Err(Flaw::NotSpelled),
        _ => Err(Flaw::Outside),
    }
}
