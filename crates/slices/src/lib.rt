// Values of slices copied, cleared and biased.
#![tactic(auto)]

ghost use Rattle.std.specs.Prelude.{◌≡◌, ◌+◌, ◌≤◌, length, get_or};
ghost use Rattle.slices.specs.Patch.{patch};
ghost use Rattle.slices.specs.Fronts.{zeroed};
ghost use Rattle.slices.specs.Biased.{biased};

// A part of a plane: w columns of h rows, row r from place from + r * stride on.
#[derive(Clone, Copy)]
pub struct Part {
    pub stride: usize,
    pub from: usize,
    pub w: usize,
    pub h: usize,
}

// The n elements of src from place `from` on go to dst from place `to` on.
pub fn copy_run<T: Copy>(src: &[T], from: usize, dst: &mut [T], to: usize, n: usize)
    requires { (from + n ≤ length src.now) × (to + n ≤ length dst.old) }
    ensures { (d : T) → (λ k. get_or dst.new k d) ≡ patch to n (λ j. get_or src.now (from + j) d) (λ k. get_or dst.old k d) }
{
    // a loop: with `copy_from_slice` a run of one value is a call, and rows of a plane take twice as long
    for j in 0..n {
        dst[to + j] = src[from + j];
    }
}

// The first n elements become 0; a work area may be longer.
pub fn clear(work: &mut [i32], n: usize)
    requires { n ≤ length work.old }
    ensures { work.new ≡ zeroed n work.old }
{
    work[..n].fill(0);
}

// z + 2 ^ 31
pub fn bias(z: i32) -> u32
    ensures { result ≡ biased z }
{
    ((z as i64) + 2147483648) as u32
}
