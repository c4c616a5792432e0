// Groups of frames that belong together: the sizes that a call hands over, and the bit bytes of the groups, delivered whole or withheld.
#![tactic(auto)]

ghost use Rattle.std.specs.Prelude.{◌≡◌, ◌*◌, ◌≤◌, length, replicate};
ghost use Rattle.refusal.specs.Outcome.{judged};
ghost use Rattle.refusal.specs.Answers.{outcome_of};
ghost use Rattle.grouping.specs.Grouping.{size_refusals, total, all, group_bits, delivered};

use refusal::Refusal;

// ---- sizes

// Whether the sizes are of groups that take so many frames: each is compared with the frames that are left, so that no sum can wrap.
#[tactic(auto, using(crate::proofs::Sizes::ways_out))]
pub fn sizes_fault(frames: usize, sizes: &[u32]) -> Result<(), Refusal>
    ensures { outcome_of result ≡ judged (size_refusals frames sizes.now) tt }
{
    if sizes.is_empty() {
        return Ok(());
    }
    let mut left = frames;
    for &n in sizes {
        let size = n as usize;
        if size == 0 {
            return Err(Refusal::GroupSizes);
        }
        if size > left {
            return Err(Refusal::GroupSizes);
        }
        left -= size;
    }
    if left > 0 {
        return Err(Refusal::GroupSizes);
    }
    Ok(())
}

// ---- bytes

// Whether all of a group's frames are clean.
fn all_clean(clean: &[bool]) -> bool
    ensures { result ≡ all clean.now }
{
    clean.iter().all(|&c| c)
}

// 255 in every byte.
fn withhold(bits: &mut [u8])
    ensures { bits.new ≡ replicate (length bits.old) 255 }
{
    bits.fill(255);
}

// A group's bytes: as they are where it is delivered, and 255 otherwise.
fn close_group(deliver: bool, bits: &mut [u8])
    ensures { bits.new ≡ group_bits deliver bits.old }
{
    if !deliver {
        withhold(bits);
    }
}

// The groups, one after another.
pub fn close_groups(k: usize, sizes: &[u32], clean: &[bool], bits: &mut [u8])
    requires sizes_in_bounds { total sizes.now ≤ length clean.now }
    requires bits_len { length bits.old ≡ length clean.now * k }
    ensures { bits.new ≡ delivered k sizes.now clean.now bits.old }
{
    let mut at = 0;
    for &n in sizes {
        let end = at + n as usize;
        let deliver = all_clean(&clean[at..end]);
        let from = at * k;
        let to = end * k;
        close_group(deliver, &mut bits[from..to]);
        at = end;
    }
}
