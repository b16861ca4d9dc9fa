//! Numbers in blocks, with the sum of each block up to each of its numbers.
ghost use Rattle.std.specs.Prelude.{◌≡◌, ℕ, ◌+◌, ◌-◌, ◌*◌, ◌%◌, ◌^◌, ◌<◌, ◌≤◌, ◌++◌, [], ◌∷◌, get_or, length, min, set, slice_index, take, vec_capacity, vec_len};
ghost use Rattle.std.specs.List.{sum};
ghost use Rattle.prefix_sums.specs.Levels.{AreEnds, AreEndsUpTo, AreSums, AreSumsUpTo};

/// How many numbers a block has at most.
pub const BLOCK: usize = 64;

/// Numbers one behind another. Its end, beside each, is the sum of its block up to it and with it.
#[derive(Drop)]
pub struct Level {
    pub numbers: Vec<usize>,
    pub ends: Vec<usize>,
}

/// The place of a block's last number.
fn last_in(numbers: &[usize], block: usize) -> usize
    requires { BLOCK * block < length numbers.now }
    ensures { result + 1 ≡ min (BLOCK * (block + 1)) (length numbers.now) }
{
    numbers.len().min(block * BLOCK + BLOCK) - 1
}

/// Where so many would be reached if each number were as much as any other. Where the product wraps, the guess is a poor
/// one, and the search takes more steps.
fn guess_of(rank: usize, whole: usize, count: usize) -> usize
    requires whole { 0 < whole }
    requires count { 0 < count }
    ensures { result < count }
{
    (rank.wrapping_mul(count) / whole).min(count - 1)
}

/// The place in the block at which so many are reached, and how many are left there.
pub fn place_within(level: &Level, block: usize, rank: usize) -> (usize, usize)
    requires ends { AreEnds level.now.numbers.items level.now.ends.items }
    requires within { sum (take (BLOCK * block) level.now.numbers.items) + rank < sum (take (BLOCK * (block + 1)) level.now.numbers.items) }
    ensures before { sum (take result.0 level.now.numbers.items) + result.1 ≡ sum (take (BLOCK * block) level.now.numbers.items) + rank }
    ensures within { result.0 < length level.now.numbers.items }
    ensures inner { result.1 < slice_index level.now.numbers.items result.0 }
{
    let ends = level.ends.as_slice();
    let start = block * BLOCK;
    let last = last_in(ends, block);
    let mut place = start + guess_of(rank, ends[last], last - start + 1);
    'right: while ends[place] <= rank {
        place += 1;
    }
    'left: while start < place {
        let before = ends[place - 1];
        if before <= rank {
            return (place, rank - before);
        }
        place -= 1;
    }
    (place, rank)
}

/// The sum of a block.
fn sum_at(level: &Level, block: usize) -> usize
    requires ends { AreEnds level.now.numbers.items level.now.ends.items }
    requires within { BLOCK * block < length level.now.numbers.items }
    ensures { sum (take (BLOCK * block) level.now.numbers.items) + result ≡ sum (take (BLOCK * (block + 1)) level.now.numbers.items) }
{
    level.ends[last_in(level.ends.as_slice(), block)]
}

/// The ends from one place up to another one take on that a number is another one.
fn replace_ends(ends: &mut [usize], start: usize, end: usize, before: usize, now: usize)
    requires order { start ≤ end }
    requires within { end ≤ length ends.old }
    requires part { (n : ℕ) → start ≤ n → n < end → before ≤ get_or ends.old n 0 }
    requires fits { (n : ℕ) → start ≤ n → n < end → get_or ends.old n 0 - before + now < 2 ^ 64 }
    ensures count { length ends.new ≡ length ends.old }
    ensures replaced { (n : ℕ) → start ≤ n → n < end → get_or ends.new n 0 ≡ get_or ends.old n 0 - before + now }
    ensures ahead { (n : ℕ) → n < start → get_or ends.new n 0 ≡ get_or ends.old n 0 }
    ensures behind { (n : ℕ) → end ≤ n → get_or ends.new n 0 ≡ get_or ends.old n 0 }
{
    for place in start..end {
        ends[place] = ends[place] - before + now;
    }
}

/// Another number stands at the place. The one that stood there is handed out.
pub fn replace_number(level: &mut Level, place: usize, now: usize) -> usize
    requires ends { AreEnds level.old.numbers.items level.old.ends.items }
    requires within { place < length level.old.numbers.items }
    requires fits { sum (set level.old.numbers.items place now) < 2 ^ 64 }
    ensures ends { AreEnds level.new.numbers.items level.new.ends.items }
    ensures numbers { level.new.numbers.items ≡ set level.old.numbers.items place now }
    ensures before { result ≡ slice_index level.old.numbers.items place }
    ensures memory { vec_capacity level.new.numbers ≡ vec_capacity level.old.numbers }
    ensures memory_ends { vec_capacity level.new.ends ≡ vec_capacity level.old.ends }
{
    let before = level.numbers[place];
    let end = last_in(level.numbers.as_slice(), place / BLOCK) + 1;
    level.numbers[place] = now;
    replace_ends(level.ends.as_mut_slice(), place, end, before, now);
    before
}

fn push_number(numbers: &mut Vec<usize>, number: usize)
    requires { vec_len numbers.old < vec_capacity numbers.old }
    ensures items { numbers.new.items ≡ numbers.old.items ++ number ∷ [] }
    ensures len { vec_len numbers.new ≡ vec_len numbers.old + 1 }
    ensures memory { vec_capacity numbers.old ≤ vec_capacity numbers.new }
{
    match numbers.push(number) {
        Ok(()) => {}
        Err(_) => unreachable!(),
    }
}

/// The end of the number ahead in the same block, if there is one.
fn end_before(ends: &[usize], place: usize) -> usize
    requires { place ≤ length ends.now }
    ensures first { place % BLOCK ≡ 0 → result ≡ 0 }
    ensures other { 0 < place % BLOCK → result ≡ slice_index ends.now (place - 1) }
{
    if place % BLOCK == 0 {
        0
    } else {
        ends[place - 1]
    }
}

/// The sum of a block ahead of the place, where the number ahead of it has this end.
#[inline(always)]
fn sum_ahead(place: usize, end: usize) -> usize
    ensures first { place % BLOCK ≡ 0 → result ≡ 0 }
    ensures other { 0 < place % BLOCK → result ≡ end }
{
    if place % BLOCK == 0 { 0 } else { end }
}

/// So many ends stay, and the others that there are are made anew in their places.
fn write_ends(numbers: &[usize], ends: &mut [usize], count: usize)
    requires stand { AreEndsUpTo count numbers.now ends.old }
    requires few { length ends.old ≤ length numbers.now }
    requires fits { sum numbers.now < 2 ^ 64 }
    ensures stand { AreEndsUpTo (length ends.old) numbers.now ends.new }
    ensures len { length ends.new ≡ length ends.old }
{
    let mut last = end_before(ends, count);
    for place in count..ends.len() {
        last = sum_ahead(place, last) + numbers[place];
        ends[place] = last;
    }
}

/// Ends are added until there is one for each number.
fn push_ends(numbers: &[usize], ends: &mut Vec<usize>)
    requires stand { AreEndsUpTo (vec_len ends.old) numbers.now ends.old.items }
    requires fits { sum numbers.now < 2 ^ 64 }
    requires memory { length numbers.now ≤ vec_capacity ends.old }
    ensures stand { AreEnds numbers.now ends.new.items }
    ensures memory { vec_capacity ends.old ≤ vec_capacity ends.new }
{
    'ends: while ends.len() < numbers.len() {
        let place = ends.len();
        let before = end_before(ends, place);
        push_number(ends, before + numbers[place]);
    }
}

/// So many ends stay, and those behind them are made anew.
pub fn renew_ends(numbers: &[usize], ends: &mut Vec<usize>, count: usize)
    requires stand { AreEndsUpTo count numbers.now ends.old.items }
    requires fits { sum numbers.now < 2 ^ 64 }
    requires memory { length numbers.now ≤ vec_capacity ends.old }
    ensures stand { AreEnds numbers.now ends.new.items }
    ensures memory { vec_capacity ends.old ≤ vec_capacity ends.new }
{
    ends.truncate(numbers.len());
    write_ends(numbers, ends.as_mut_slice(), count);
    push_ends(numbers, ends);
}

/// So many sums of blocks stay, and those of the blocks behind them are made anew.
pub fn renew_sums(level: &Level, sums: &mut Vec<usize>, count: usize)
    requires ends { AreEnds level.now.numbers.items level.now.ends.items }
    requires stand { AreSumsUpTo count level.now.numbers.items sums.old.items }
    requires memory { length level.now.numbers.items ≤ vec_capacity sums.old }
    ensures stand { AreSums level.now.numbers.items sums.new.items }
    ensures kept { take count sums.new.items ≡ take count sums.old.items }
    ensures memory { vec_capacity sums.old ≤ vec_capacity sums.new }
{
    sums.truncate(count);
    'sums: while sums.len() * BLOCK < level.numbers.len() {
        let next = sum_at(level, sums.len());
        push_number(sums, next);
    }
}
