// Whether whole elements stand at a place: the place behind them, if they do. Faults are not told apart.
#![tactic(auto)]

ghost use Rattle.std.specs.Prelude.{◌≡◌, true, false, suc, ◌+◌, ◌-◌, ◌<◌, ◌≤◌, length, get_or, take, drop};
ghost use Rattle.base.specs.Number.{number_from};
ghost use Rattle.element.specs.Head.{within, length_of};
ghost use Rattle.element.specs.Answers.{element_walk, series_walk};
ghost use Rattle.element.specs.inner.Fronts.{front_of, span, long_read, length_size};
ghost use Rattle.walk.specs.Walks.{Within, Extended, tag_end, length_end, end_by_length, whole_place, pair_place};

// The place behind the tag of more than one octet that begins here.
#[tactic(auto, using(base::proofs::Tests::tests, element::proofs::Views::tag_view), unfolding(crate::specs::Walks::tag_end, element::specs::inner::Fronts::front_of, element::specs::inner::Fronts::fronted, element::proofs::Views::tag_by, element::specs::Element::extended_of, element::specs::Element::code_zero))]
fn long_tag(m: &[u8], at: usize, end: usize) -> Option<usize>
    requires { Within m.now at end × Extended (end - at) (get_or m.now at 0) }
    ensures { result ≡ tag_end at (front_of 1 (span m.now at end)) }
{
    let left = end - at;
    if left < 2 {
        return None;
    }
    match m[at + 1] {
        0..=30 | 128 => None,
        31..=127 => Some(at + 2),
        _ if left > 2 && m[at + 2] < 128 => Some(at + 3),
        _ if left > 3 && m[at + 3] < 128 => Some(at + 4),
        _ => None,
    }
}

// The place behind the tag here, which is not of code 0.
#[tactic(auto, using(base::proofs::Tests::tests, element::proofs::Views::tag_view), unfolding(crate::specs::Walks::tag_end, element::specs::inner::Fronts::front_of, element::specs::inner::Fronts::fronted, element::proofs::Views::tag_by, element::specs::Element::extended_of, element::specs::Element::code_zero))]
fn tag_end(m: &[u8], at: usize, end: usize) -> Option<usize>
    requires { Within m.now at end }
    ensures { result ≡ tag_end at (front_of 1 (span m.now at end)) }
{
    if at == end {
        return None;
    }
    match m[at] {
        0x00 | 0x20 => None,
        first if first % 32 == 31 => long_tag(m, at, end),
        _ => Some(at + 1),
    }
}

// Where contents end of whose length the `k` octets behind `from` are the number, if they pass not the `room` octets behind these.
#[tactic(auto, using(crate::proofs::Views::counting))]
fn count_end(m: &[u8], from: usize, k: usize, room: usize) -> Option<usize>
    requires { from + 1 + k + room ≤ length m.now }
    ensures { result ≡ length_end from (within (suc k) (number_from 0 (take k (drop (from + 1) m.now))) room) }
{
    let mut value = 0;
    for octet in &m[from + 1..from + 1 + k] {
        if value > room / 256 {
            return None;
        }
        value = value * 256 + usize::from(*octet);
    }
    if value > room {
        return None;
    }
    Some(from + 1 + k + value)
}

// The same, with `past` where they pass them: the answer of the readers, whose faults are numbers behind the places.
#[tactic(auto, using(crate::proofs::Views::end_or_past))]
pub fn long_count(m: &[u8], from: usize, k: usize, room: usize, past: usize) -> usize
    requires { from + 1 + k + room ≤ length m.now }
    ensures { result ≡ end_by_length from past (within (suc k) (number_from 0 (take k (drop (from + 1) m.now))) room) }
{
    count_end(m, from, k, room).unwrap_or(past)
}

// Where contents end whose length takes `k` octets behind `from`.
#[tactic(auto, using(crate::proofs::Views::long_lengths), unfolding(crate::specs::Walks::length_end, element::specs::inner::Fronts::long_read, element::proofs::Views::long_by, element::specs::Form::fewest_of))]
fn long_end(m: &[u8], from: usize, end: usize, k: usize) -> Option<usize>
    requires { Within m.now from end × (from < end) × (1 ≤ k) }
    ensures { result ≡ length_end from (long_read (span m.now from end) k) }
{
    let left = end - from - 1;
    if k > 126 || left < k {
        return None;
    }
    match m[from + 1] {
        0 => None,
        1..=127 if k == 1 => None,
        _ => count_end(m, from, k, left - k),
    }
}

// Where contents end whose length, which is not 80, stands at `from`.
#[tactic(auto, using(crate::proofs::Views::short_lengths), unfolding(crate::specs::Walks::length_end))]
fn contents_end(m: &[u8], from: usize, end: usize) -> Option<usize>
    requires { Within m.now from end × (from < end) × (get_or m.now from 0 ≡ 128 → ⊥) }
    ensures { result ≡ length_end from (length_of (span m.now from end) false) }
{
    let b = usize::from(m[from]);
    if b >= 128 {
        return long_end(m, from, end, b - 128);
    }
    if b > end - from - 1 {
        return None;
    }
    Some(from + 1 + b)
}

// Where contents begin whose length, which is good, stands at `from`.
#[tactic(auto, using(base::proofs::Tests::tests), unfolding(element::specs::inner::Fronts::length_size))]
pub fn start_of(m: &[u8], from: usize) -> usize
    requires { from < length m.now }
    ensures { result ≡ from + length_size (get_or m.now from 0) }
{
    match m[from] {
        0..=128 => from + 1,
        b => from + 1 + usize::from(b - 128),
    }
}

// Any element, walked to its bottom; `left` is the number of levels left, its own among them.
#[cycle(next_at_open_at_shut_at_whole_at)]
pub fn whole_at(m: &[u8], at: usize, end: usize, left: usize) -> Option<usize>
    requires { Within m.now at end }
    ensures { result ≡ whole_place at (element_walk 0 left at (span m.now at end)) }
{
    if left == 0 {
        return None;
    }
    let from = tag_end(m, at, end)?;
    if from == end {
        return None;
    }
    let primitive = m[at] / 32 % 2 == 0;
    if m[from] == 128 {
        if primitive {
            return None;
        }
        return open_at(m, from + 1, end, left - 1);
    }
    let stop = contents_end(m, from, end)?;
    if primitive {
        return Some(stop);
    }
    shut_at(m, start_of(m, from), stop, left - 1)
}

// The same; most elements are primitives whose tag and length take an octet each.
#[cycle(next_at_open_at_shut_at_whole_at)]
fn next_at(m: &[u8], at: usize, end: usize, left: usize) -> Option<usize>
    requires { Within m.now at end }
    ensures { result ≡ whole_place at (element_walk 0 left at (span m.now at end)) }
{
    let room = end - at;
    if left > 0 && room >= 2 {
        let first = m[at];
        let n = usize::from(m[at + 1]);
        if first % 32 != 31 && first != 0 && first / 32 % 2 == 0 && n < 128 && n <= room - 2 {
            return Some(at + 2 + n);
        }
    }
    whole_at(m, at, end, left)
}

// Elements to the end of definite contents.
#[cycle(next_at_open_at_shut_at_whole_at)]
fn shut_at(m: &[u8], from: usize, end: usize, left: usize) -> Option<usize>
    requires { Within m.now from end }
    ensures { result ≡ whole_place from (series_walk 0 left true from (span m.now from end)) }
{
    let mut at = from;
    while at != end {
        at = next_at(m, at, end, left)?;
    }
    Some(end)
}

// Elements to the end pair of indefinite contents, and that pair.
#[cycle(next_at_open_at_shut_at_whole_at)]
fn open_at(m: &[u8], from: usize, end: usize, left: usize) -> Option<usize>
    requires { Within m.now from end }
    ensures { result ≡ pair_place from (series_walk 0 left false from (span m.now from end)) }
{
    let mut at = from;
    while end - at >= 2 {
        if m[at] == 0 {
            if m[at + 1] == 0 {
                return Some(at + 2);
            }
            return None;
        }
        at = next_at(m, at, end, left)?;
    }
    None
}
