// Areas that a call writes to, and what is told of them.
ghost use Rattle.std.specs.Prelude.{◌≡◌, ◌↔◌, ◌+◌, ◌≤◌, ◌<◌, length, take, drop, IsSome, IfSome};
ghost use Rattle.std.specs.List.{AllPass};

// The first n items, if all others hold a mark, as nobody wrote to them.
pub fn front<T: Copy + PartialEq>(area: &[T], n: usize, mark: T) -> Option<&[T]>
    ensures part { IfSome result (λ front. (n ≤ length area.now) × (front.now ≡ take n area.now)) }
    ensures exactly { IsSome result ↔ ((n ≤ length area.now) × AllPass (λ item. T.eq item mark) (drop n area.now)) }
{
    let (front, others) = area.split_at_checked(n)?;
    others.iter().all(|item| *item == mark).then_some(front)
}

// The n items from `place` on, if all others hold a mark.
pub fn framed<T: Copy + PartialEq>(area: &[T], place: usize, n: usize, mark: T) -> Option<&[T]>
    ensures part { IfSome result (λ part. part.now ≡ take n (drop place area.now)) }
    ensures exactly { IsSome result ↔ ((place + n ≤ length area.now)
        × AllPass (λ item. T.eq item mark) (take place area.now)
        × AllPass (λ item. T.eq item mark) (drop (place + n) area.now)) }
{
    let (before, rest) = area.split_at_checked(place)?;
    let part = front(rest, n, mark)?;
    before.iter().all(|item| *item == mark).then_some(part)
}

// The remainder of a number with one digit more. Only where that is beyond 2^64 - 1 is it divided as one of 128 bits.
fn next(rest: u64, base: u64, digit: u64, modulus: u64) -> u64
    requires { 0 < modulus }
    ensures { result < modulus }
{
    match base
        .checked_mul(rest)
        .and_then(|high| high.checked_add(digit))
    {
        Some(number) => number % modulus,
        None => {
            let number = u128::from(base) * u128::from(rest) + u128::from(digit);
            (number % u128::from(modulus)) as u64
        }
    }
}

// The remainder of the number whose digits the items are, the first one highest.
pub fn remainder<T: Copy + Into<u64>>(items: &[T], base: u64, modulus: u64) -> u64
    requires { 0 < modulus }
    ensures { result < modulus }
{
    let mut rest: u64 = 0;
    // A fold's closure would have to ask that the remainder so far is below the modulus.
    for item in items {
        rest = next(rest, base, (*item).into(), modulus);
    }
    rest
}
