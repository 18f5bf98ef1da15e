// Places of a block and their indices, the last variable fastest.
ghost use Rattle.std.specs.Prelude.{◌≡◌, ◌+◌};
ghost use Rattle.model.specs.Header.{count};
ghost use Rattle.model.specs.Places.{strides, place, index, inside};
ghost use Rattle.shape_words.specs.Lengths.{Lengths, Sizes, Inside, RowAt};
ghost use Rattle.lists.specs.Four.{at};

// The number of places.
pub fn count_of(n: [usize; 4]) -> usize
    requires { Lengths n }
    ensures { result ≡ count n }
{
    n[0] * (n[1] * (n[2] * n[3]))
}

// How far apart neighbours lie in each variable.
pub fn strides_of(n: [usize; 4]) -> [usize; 4]
    requires { Lengths n }
    ensures { result ≡ strides n }
{
    let s = n[2] * n[3];
    [n[1] * s, s, n[3], 1]
}

// The place of an index that lies inside.
pub fn place_of(n: [usize; 4], i: [usize; 4]) -> usize
    requires fact_1 { Sizes n }
    requires fact_2 { Inside n i }
    ensures { result ≡ place n i }
{
    ((i[0] * n[1] + i[1]) * n[2] + i[2]) * n[3] + i[3]
}

// The index of a place.
pub fn index_of(n: [usize; 4], p: usize) -> [usize; 4]
    requires { Lengths n }
    ensures { result ≡ index n p }
{
    let q = p / n[3];
    let r = q / n[2];
    [r / n[1], r % n[1], q % n[2], p % n[3]]
}

// Whether the lengths reach to an index.
pub fn is_inside(n: [usize; 4], i: [usize; 4]) -> bool
    ensures { result ≡ inside n i }
{
    (i[0] < n[0]) & (i[1] < n[1]) & (i[2] < n[2]) & (i[3] < n[3])
}

// The index of the first place of the next row: a row is the places that differ in the last variable alone.
pub fn next_row(n: [usize; 4], i: [usize; 4]) -> [usize; 4]
    requires fact_1 { Sizes n }
    requires fact_2 { RowAt n i }
    ensures { result ≡ index n (place n i + at n 3) }
{
    if i[2] + 1 < n[2] {
        return [i[0], i[1], i[2] + 1, 0];
    }
    if i[1] + 1 < n[1] {
        return [i[0], i[1] + 1, 0, 0];
    }
    [i[0] + 1, 0, 0, 0]
}
