// The first reason that applies of a frame, from its values and its word: a NaN among its values, an unsatisfied check or a wrong checksum.
#![tactic(auto)]

ghost use Rattle.std.specs.Prelude.{◌≡◌, ◌≤◌, length, take};
ghost use Rattle.tanner.specs.Found.{first_of};
ghost use Rattle.numbered.specs.Codes.{size_k};
ghost use Rattle.first_reason.specs.Reasons.{first_nan, nan_or, check_or, checksum_or};

// The first reason that applies: the lowest position of a NaN; the lowest unsatisfied check; for code 3 the checksum that the bits carry and the one
// computed of them, where they differ; otherwise the frame is clean.
#[derive(Clone, Copy, Debug, PartialEq, Eq)]
pub enum Reason {
    Nan(u16),
    Check(u16),
    Checksum { carried: u16, computed: u16 },
    Clean,
}

// The lowest position of a NaN, if there is one.
fn first_nan(values: &[f32]) -> Option<u16>
    requires { length values.now ≤ 65536 }
    ensures { result ≡ first_nan 0 values.now }
{
    for (i, v) in values.iter().enumerate() {
        if v.is_nan() {
            return Some(i as u16);
        }
    }
    None
}

// What the 91 bits of a codeword of (174,91) say.
fn checksum_reason(bits: &[u8]) -> Reason
    requires { length bits.now ≡ 91 }
    ensures { result ≡ checksum_or 3 bits.now Reason.Clean }
{
    let both = clean::both_checksums(bits);
    let carried = both.carried;
    let computed = both.computed;
    if computed == carried {
        return Reason::Clean;
    }
    Reason::Checksum { carried, computed }
}

// The reasons in their order, of a frame's values, its word and the word's first unsatisfied check.
pub fn reason_of(code: u32, first: Option<u16>, values: &[f32], word: &[u8]) -> Reason
    requires values_len_bound { length values.now ≤ 65536 }
    requires in_bounds { code ≡ 3 → 91 ≤ length word.now }
    ensures { result
        ≡ nan_or (first_nan 0 values.now) (check_or (first_of first) (checksum_or code (take (size_k code) word.now) Reason.Clean)) }
{
    if let Some(p) = first_nan(values) {
        return Reason::Nan(p);
    }
    if let Some(c) = first {
        return Reason::Check(c);
    }
    if code == 3 {
        return checksum_reason(&word[..91]);
    }
    Reason::Clean
}
