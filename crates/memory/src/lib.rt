// Plain memory: a word at a place, a store, all words 0, words copied, a byte as a word, and two small functions on places.
#![tactic(auto)]

ghost use Rattle.std.specs.Prelude.{◌-◌, ◌<◌, min, ◌≡◌, length, get_or, set};
ghost use Rattle.memory.specs.Memory.{zeros, copied};

// The word at a place, which past the end is 0.
pub fn word(ws: &[u64], i: usize) -> u64
    ensures { result ≡ get_or ws.now i 0 }
{
    ws.get(i).copied().unwrap_or(0)
}

// A byte as a word.
pub fn wide(b: u8) -> u64
    ensures { (result ≡ b) × (result < 256) }
{
    u64::from(b)
}

// One less, from 1 on.
pub fn less(n: usize) -> usize
    ensures { result ≡ n - 1 }
{
    n.saturating_sub(1)
}

// The lower of a and b.
pub fn least(a: usize, b: usize) -> usize
    ensures { result ≡ min a b }
{
    a.min(b)
}

// One word, where the memory has that place.
pub fn store(ws: &mut [u64], k: usize, v: u64)
    ensures { ws.new ≡ set ws.old k v }
{
    if k < ws.len() {
        ws[k] = v;
    }
}

// All zeros.
pub fn clear(out: &mut [u64])
    ensures { out.new ≡ zeros (length out.old) }
{
    out.fill(0);
}

// Words copied, as many as both have.
pub fn copy(from: &[u64], to: &mut [u64])
    ensures { to.new ≡ copied from.now to.old }
{
    let end = least(from.len(), to.len());
    for i in 0..end {
        to[i] = from[i];
    }
}
