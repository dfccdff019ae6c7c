// The counts beside the slot: for each page of 4,096 bytes how many of them lie below the session's place.
#![tactic(auto)]

ghost use Rattle.std.specs.Prelude.{◌≡◌, true, false, ℕ, ◌+◌, ◌*◌, ◌-◌, ◌≤◌, ◌<◌, min, length};
ghost use Rattle.pages.specs.Pages.{page_size, pages_of_def, counted, agrees, stretches};
ghost use Rattle.pages.specs.Inner.{AllAre, OneIsNot};

// How many bytes a page has, but for a last one that is shorter; and what the count of a full one is.
const PAGE: usize = 4096;

const FULL: u16 = 4096;

// How many pages a slot of so many bytes has.
#[tactic(auto, unfolding(crate::specs::Pages::pages_of_def))]
fn pages_of(size: usize) -> usize
    ensures { result ≡ pages_of_def size }
{
    size.div_ceil(PAGE)
}

// How many full stretches of 4,096 bytes lie below n.
pub fn full_stretches(n: usize) -> usize
    ensures { result ≡ stretches n }
{
    n / PAGE
}

// Whether all entries are v.
fn are_all(counts: &[u16], v: u16) -> bool
    ensures { (result ≡ true → AllAre counts.now 0 (length counts.now) v) × (result ≡ false → OneIsNot counts.now 0 (length counts.now) v) }
{
    let mut all = true;
    // All are looked at, so that several can be at a time: `all`, which stops at the first other one, takes them one by one, and is slower.
    for c in counts {
        all &= *c == v;
    }
    all
}

// Whether a table agrees with the place n of a slot: full pages, the page that n stands in, and pages that n has not come to.
pub fn agree(counts: &[u16], size: usize, n: usize) -> bool
    requires { (n ≤ size) × (size ≤ 1048576) }
    ensures { result ≡ agrees size n counts.now }
{
    let pages = pages_of(size);
    if counts.len() < pages {
        return false;
    }
    let full = n / PAGE;
    if !are_all(&counts[..full], FULL) {
        return false;
    }
    if pages <= full {
        return true;
    }
    let part = (n % PAGE) as u16;
    if counts[full] != part {
        return false;
    }
    are_all(&counts[full + 1..pages], 0)
}

// How many bytes of the page number k lie below n, where the slot has n bytes.
fn count_at(n: usize, k: usize) -> u16
    requires { page_size * k < 1048576 }
    ensures { result ≡ min page_size (n - page_size * k) }
{
    n.saturating_sub(PAGE * k).min(PAGE) as u16
}

// Makes a table that agrees with one place agree with another: only the pages between them are written.
pub fn follow(counts: &mut [u16], before: usize, after: usize)
    requires before_bound { (before ≤ 1048576) × (after ≤ 1048576) }
    requires before_bound_2 { (before ≤ page_size * length counts.old) × (after ≤ page_size * length counts.old) }
    ensures { (size : ℕ) → before ≤ size → after ≤ size → agrees size before counts.old ≡ true
        → counts.new ≡ counted size after counts.old }
{
    let low = before.min(after);
    let high = before.max(after);
    for k in low / PAGE..high.div_ceil(PAGE) {
        counts[k] = count_at(after, k);
    }
}
