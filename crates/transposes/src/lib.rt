// Conjugate transpose in place. Each place is exchanged with its mirror when the earlier of the two is reached, both negated on the way; a place of the
// diagonal is its own mirror.
// An inner room: its caller, unitaries, is proved to have judged the numbers that are asked.
#![tactic(auto)]

ghost use Rattle.std.specs.Prelude.{◌≡◌, ◌+◌, ◌*◌, ◌/◌, ◌%◌, ◌≤◌, ◌<◌};
ghost use Rattle.book.specs.Lent.{before, after, here};
ghost use Rattle.matrices.specs.Filled.{Holds};
ghost use Rattle.transposes.specs.Mirrored.{mirror, Crossed, TurnedAt, Turned};

// The place with row and column exchanged.
fn mirror_of(place: usize, side: usize) -> usize
    requires { (place < side * side) × (side ≤ 64) }
    ensures { result ≡ mirror side place }
{
    place % side * side + place / side
}

// Two places, or one, exchanged and negated.
// Stays: `Holds` and the bound of side at each function: they are of the two buffers that C lends.
fn cross(reals: &mut [f64], imags: &mut [f64], i: usize, j: usize)
    requires { Holds (i + 1) (here reals imags) × Holds (j + 1) (here reals imags) }
    ensures { Crossed i j (before reals imags) (after reals imags) }
{
    let re = reals[i];
    let im = imags[i];
    let other_re = reals[j];
    let other_im = imags[j];
    reals[i] = other_re;
    imags[i] = -other_im;
    reals[j] = re;
    imags[j] = -im;
}

// A place is crossed with its mirror, unless the mirror came before it.
fn turn_at(reals: &mut [f64], imags: &mut [f64], place: usize, side: usize)
    requires { (place < side * side) × (side ≤ 64) × Holds (side * side) (here reals imags) }
    ensures { TurnedAt side place (before reals imags) (after reals imags) }
{
    let other = mirror_of(place, side);
    if other < place {
        return;
    }
    cross(reals, imags, place, other);
}

pub fn turn_all(reals: &mut [f64], imags: &mut [f64], side: usize)
    requires { (side ≤ 64) × Holds (side * side) (here reals imags) }
    ensures { Turned side (side * side) (before reals imags) (after reals imags) }
{
    for place in 0..side * side {
        turn_at(reals, imags, place, side);
    }
}
