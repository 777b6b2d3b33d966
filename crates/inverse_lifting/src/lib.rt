// The 9/7 lifting inverted in 64-bit values (document 02, job 1): a line step by step, its four stages together. Rows are inverted one by one,
// columns side by side in strips, so that memory is passed over once. A single value has no stages (document 02, job 6).
#![tactic(auto)]

ghost use Rattle.std.specs.Prelude.{◌≡◌, true, ℕ, ◌+◌, ◌-◌, ◌*◌, ◌<◌, ◌≤◌, min, length, take, drop, nat_abs};
ghost use Rattle.slices.specs.Patch.{at, Free, patch};
ghost use Rattle.slices.specs.Parts.{Part, row_of};
ghost use Rattle.inverse_lifting.specs.Fixed.{node_bits, limit};
ghost use Rattle.inverse_lifting.specs.Planes.{Safe, rows_inverse};
ghost use Rattle.inverse_lifting.specs.Stages.{Inside, Constant, moved_by, ended_by, scaled_by};
ghost use Rattle.inverse_lifting.specs.Steps.{LowAsks, LowStepped, HighAsks, HighStepped, SomeReady, Stepped};
ghost use Rattle.inverse_lifting.specs.Rows.{RowReady, RowSteps, RowStepped, RowInverted};
ghost use Rattle.inverse_lifting.specs.Columns.{ColumnStep, ColumnStepped, StripStep, StripStepped};
ghost use Rattle.inverse_lifting.specs.Strips.{source, inverted, singles, Lies, Fed, high_place, PlaneStep, PlaneStepped, StripReady};

// ---- the constants

// The fractional bits of a constant, and those of a node.
pub const CONSTANT_BITS: u32 = 24;

pub const NODE_BITS: u32 = 20;

// The constants of P1, U1, P2 and U2.
const ALPHA: i64 = -26610918;

const BETA: i64 = -888859;

const GAMMA: i64 = 14812790;

const DELTA: i64 = 7440810;

// The factors of the highs and of the lows.
const ZETA: i64 = 19287161;

const ZETA_INVERSE: i64 = 14593904;

// 1 at the bits of a node.
const ONE: i64 = 1 << NODE_BITS;

// ---- one value

// A value with a stage inverted.
fn moved(own: i64, x: i64, y: i64, c: i64) -> i64
    requires { Inside own x y × Constant c }
    ensures { result ≡ moved_by c own x y }
{
    own + (((0 - c) * (x + y)) >> CONSTANT_BITS)
}

// The same at an end of its line, where both neighbours are one: source document 003, equations 3 and 4, inverted. The rounded constant is
// doubled.
fn moved_end(own: i64, x: i64, c: i64) -> i64
    requires { Inside own x x × Constant c }
    ensures { result ≡ ended_by c own x }
{
    own + (((0 - 2 * c) * x) >> CONSTANT_BITS)
}

// A value times a constant.
fn scaled(x: i64, c: i64, cut: u32) -> i64
    requires { (nat_abs x ≤ limit) × Constant c × (cut < 64) }
    ensures { result ≡ scaled_by c cut x }
{
    (c * x) >> cut
}

// ---- a step of a line

// Step i of a line takes low i and high i, scaled, and inverts U2 at low i, P2 at high i - 1, U1 at low i - 1 and P1 at high i - 2. Past the
// last low and the last high it takes that one again, and does not use it. Held after it are g2 and u2 of place i, p2 and u1 of place i - 1;
// `even` and `odd` are what it gives: the line's values at places 2 (i - 2) and 2 (i - 2) + 1.
#[derive(Clone, Copy)]
struct Pipeline {
    g2: i64,
    u2: i64,
    p2: i64,
    u1: i64,
    even: i64,
    odd: i64,
}

// Nothing is held.
const NONE: Pipeline = Pipeline {
    g2: 0,
    u2: 0,
    p2: 0,
    u1: 0,
    even: 0,
    odd: 0,
};

// Place k of a line of so many lows and highs.
#[derive(Clone, Copy)]
struct Place {
    k: usize,
    lows: usize,
    highs: usize,
}

// What a stage is inverted of: a value with its neighbours, and what was kept, which stays past the line's last place.
#[derive(Clone, Copy)]
struct Stage {
    kept: i64,
    own: i64,
    before: i64,
    after: i64,
}

// Low k of a line with a stage inverted, by cases. Past the last one, what was kept.
fn on_low(p: Place, x: Stage, c: i64) -> i64
    requires { LowAsks p.k p.lows p.highs x.own x.before x.after × Constant c }
    ensures { LowStepped (moved_by c) (ended_by c) p.k p.lows p.highs x.kept x.own x.before x.after result }
{
    if p.lows <= p.k {
        return x.kept;
    }
    // the first low: source document 003, equation 3, inverted
    if p.k == 0 {
        return moved_end(x.own, x.after, c);
    }
    // the last low of an odd length, in the same style
    if p.highs <= p.k {
        return moved_end(x.own, x.before, c);
    }
    moved(x.own, x.before, x.after, c)
}

// High k of a line with a stage inverted, by cases. Past the last one, what was kept.
fn on_high(p: Place, x: Stage, c: i64) -> i64
    requires { HighAsks p.k p.lows p.highs x.own x.before x.after × Constant c }
    ensures { HighStepped (moved_by c) (ended_by c) p.k p.lows p.highs x.kept x.own x.before x.after result }
{
    if p.highs <= p.k {
        return x.kept;
    }
    // the last high of an even length: source document 003, equation 4, inverted
    if p.lows <= p.k + 1 {
        return moved_end(x.own, x.before, c);
    }
    moved(x.own, x.before, x.after, c)
}

// Step k away from the ends of a line. It is no plainer as one function with `end_step`, whose stages have cases and whose first steps end
// early; the chain of the stages is proved once for both.
fn inner_step(t: Pipeline, low: i64, high: i64, p: Place) -> Pipeline
    requires { SomeReady p.k p.lows p.highs t low high × (2 ≤ p.k) × (p.k < p.highs) }
    ensures { Stepped p.k p.lows p.highs t low high result }
{
    let u2 = moved(low, t.g2, high, DELTA);
    let p2 = moved(t.g2, t.u2, u2, GAMMA);
    let u1 = moved(t.u2, t.p2, p2, BETA);
    let p1 = moved(t.p2, t.u1, u1, ALPHA);
    Pipeline {
        g2: high,
        u2,
        p2,
        u1,
        even: t.u1,
        odd: p1,
    }
}

// Any step k: each stage as far as its place is one of the line's.
fn end_step(t: Pipeline, low: i64, high: i64, p: Place) -> Pipeline
    requires { SomeReady p.k p.lows p.highs t low high }
    ensures { Stepped p.k p.lows p.highs t low high result }
{
    let u2 = on_low(
        p,
        Stage {
            kept: t.u2,
            own: low,
            before: t.g2,
            after: high,
        },
        DELTA,
    );
    let first = Pipeline {
        g2: high,
        u2,
        ..NONE
    };
    if p.k == 0 {
        return first;
    }
    let before = Place { k: p.k - 1, ..p };
    let p2 = on_high(
        before,
        Stage {
            kept: t.p2,
            own: t.g2,
            before: t.u2,
            after: u2,
        },
        GAMMA,
    );
    let u1 = on_low(
        before,
        Stage {
            kept: t.u1,
            own: t.u2,
            before: t.p2,
            after: p2,
        },
        BETA,
    );
    let second = Pipeline { p2, u1, ..first };
    if p.k == 1 {
        return second;
    }
    let p1 = on_high(
        Place { k: p.k - 2, ..p },
        Stage {
            kept: 0,
            own: t.p2,
            before: t.u1,
            after: u1,
        },
        ALPHA,
    );
    Pipeline {
        even: t.u1,
        odd: p1,
        ..second
    }
}

// Step k of a line, which takes a low and a high, scaled. Away from the ends, where it may be INNER, it is quicker.
fn stepped<const INNER: bool>(t: Pipeline, low: i64, high: i64, p: Place) -> Pipeline
    requires { SomeReady p.k p.lows p.highs t low high × (INNER ≡ true → (2 ≤ p.k) × (p.k < p.highs)) }
    ensures { Stepped p.k p.lows p.highs t low high result }
{
    if INNER {
        return inner_step(t, low, high, p);
    }
    end_step(t, low, high, p)
}

// ---- places

// The place that step i reads: i, or the last one where i is past it (what stands there is then not used). Where i is known not to be past
// it, it may be INNER.
fn up_to<const INNER: bool>(i: usize, last: usize) -> usize
    requires { INNER ≡ true → i ≤ last }
    ensures { result ≡ min i last }
{
    if INNER { i } else { i.min(last) }
}

// ---- a row

// A row's values begin at this place of its line: each step leaves two values there, and those of the first two steps do not count.
pub const ROW_START: usize = 4;

// Steps start to end - 1 of the row of w values from place `from` on; step i leaves its two values at places 2 i and 2 i + 1 of the line.
// Away from the row's ends they may be INNER.
fn row_steps<const INNER: bool>(
    work: &[i64],
    line: &mut [i64],
    from: usize,
    w: usize,
    start: usize,
    end: usize,
    held: Pipeline,
) -> Pipeline
    requires { RowSteps work.now line.old from w start end held INNER }
    ensures { RowStepped work.now line.new from w end result }
{
    let lows = (w + 1) / 2;
    let highs = w / 2;
    let mut t = held;
    // the index names two places of the row and two of the line
    for i in start..end {
        let a = up_to::<INNER>(i, lows - 1);
        let b = up_to::<INNER>(i, highs - 1);
        t = stepped::<INNER>(
            t,
            scaled(work[from + a], ZETA_INVERSE, CONSTANT_BITS),
            scaled(work[from + lows + b], ZETA, CONSTANT_BITS),
            Place { k: i, lows, highs },
        );
        line[2 * i] = t.even;
        line[2 * i + 1] = t.odd;
    }
    t
}

// The row of w values from place `from` on, inverted: it stands in the line from place ROW_START on, and all else there is free.
// Lows and highs have the bits of a node.
pub fn row(work: &[i64], line: &mut [i64], from: usize, w: usize)
    requires { RowReady work.now (length line.old) from w }
    ensures row { RowInverted work.now line.new from w }
    ensures line { Free line.old line.new }
{
    if w < 2 {
        slices::copy_run(work, from, line, ROW_START, w);
        return;
    }
    let end = (w / 2).max(2);
    let first = row_steps::<false>(work, line, from, w, 0, 2, NONE);
    let then = row_steps::<true>(work, line, from, w, 2, end, first);
    row_steps::<false>(work, line, from, w, end, (w + 1) / 2 + 2, then);
}

// The first w values of each of h rows, row r starting at r * stride, inverted in place.
pub fn rows(work: &mut [i64], line: &mut [i64], stride: usize, w: usize, h: usize)
    requires part { Part work.old stride 0 w h × (w + 6 ≤ length line.old) }
    requires by_index { (r : ℕ) → r < h → Safe node_bits node_bits w (row_of stride 0 (at work.old) r) }
    ensures work { at work.new ≡ rows_inverse stride w h (at work.old) }
    ensures line { Free line.old line.new }
{
    // a single value has the bits of a node already
    if w < 2 {
        return;
    }
    // r numbers a row: rows lie stride apart
    for r in 0..h {
        row(work, line, r * stride, w);
        slices::copy_run(line, ROW_START, work, r * stride, w);
    }
}

// ---- columns of a plane

// Columns from column `from` on: a row of the plane is `width` long, and in the work area they have lines `stride` apart. Their lows are
// stored in the plane, or stand on the even lines of the work area.
#[derive(Clone, Copy)]
pub struct ColumnsAt {
    pub width: usize,
    pub stride: usize,
    pub from: usize,
    pub stored: bool,
}

// So many columns of so many lines; the lows have lowbits bits, the highs highbits.
#[derive(Clone, Copy)]
pub struct ColumnsOf {
    pub columns: usize,
    pub lines: usize,
    pub lowbits: u32,
    pub highbits: u32,
}

// ---- a strip: neighbouring columns, inverted step by step side by side

// Where the columns of a strip are, and how many.
#[derive(Clone, Copy)]
struct Strip {
    place: ColumnsAt,
    size: ColumnsOf,
}

// Step i of a column of which g2, u2, p2 and u1 are held, and whose low and high come next.
fn column_step<const INNER: bool>(
    held: [i64; 4],
    low: i64,
    high: i32,
    b: ColumnsOf,
    i: usize,
) -> Pipeline
    requires { ColumnStep held low high b i INNER }
    ensures { ColumnStepped held low high b i result }
{
    stepped::<INNER>(
        Pipeline {
            g2: held[0],
            u2: held[1],
            p2: held[2],
            u1: held[3],
            ..NONE
        },
        scaled(low, ZETA_INVERSE, CONSTANT_BITS - NODE_BITS + b.lowbits),
        scaled(high as i64, ZETA, CONSTANT_BITS - NODE_BITS + b.highbits),
        Place {
            k: i,
            lows: (b.lines + 1) / 2,
            highs: b.lines / 2,
        },
    )
}

// Step i of every column of a strip: of each four values are held, its low and its high come next, and what it gives goes to a place of
// `even` and one of `odd`.
fn steps<const INNER: bool>(
    high: &[i32],
    low: &[i64],
    held: &mut [[i64; 4]],
    even: &mut [i64],
    odd: &mut [i64],
    b: ColumnsOf,
    i: usize,
)
    requires { StripStep high.now low.now held.old (length even.old) (length odd.old) b i INNER }
    ensures { StripStepped high.now low.now held.old held.new even.old even.new odd.old odd.new b i }
{
    // the index names a place of five slices: of what a zip of lent ones leaves nothing is known
    for j in 0..b.columns {
        let t = column_step::<INNER>(held[j], low[j], high[j], b, i);
        held[j] = [t.g2, t.u2, t.p2, t.u1];
        even[j] = t.even;
        odd[j] = t.odd;
    }
}

// The coefficients go to dst.
fn load(values: &[i32], dst: &mut [i64])
    requires { length dst.old ≡ length values.now }
    ensures { (j : ℕ) → j < length values.now → at dst.new j ≡ at values.now j }
{
    // of what a zip of a lent slice leaves nothing is known
    for (j, x) in dst.iter_mut().enumerate() {
        *x = values[j] as i64;
    }
}

// Low i of every column of a strip comes next, if there is one.
fn feed(plane: &[i32], work: &[i64], next: &mut [i64], s: Strip, i: usize)
    requires { Lies (length plane.now) (length work.now) s.place s.size.columns s.size.lines × (length next.old ≡ s.size.columns) }
    ensures { Fed plane.now work.now next.old next.new s.place s.size i }
{
    if (s.size.lines + 1) / 2 <= i {
        return;
    }
    if s.place.stored {
        let from = s.place.from + i * s.place.width;
        load(&plane[from..from + s.size.columns], next);
        return;
    }
    slices::copy_run(
        work,
        s.place.from + 2 * i * s.place.stride,
        next,
        0,
        s.size.columns,
    );
}

// Step i of a strip at the ends of its columns: what it gives goes to the work area by way of `line`, as far as there are such lines.
fn outer_step(
    high: &[i32],
    low: &[i64],
    held: &mut [[i64; 4]],
    work: &mut [i64],
    line: &mut [i64],
    s: Strip,
    i: usize,
)
    requires { PlaneStep high.now low.now held.old (length work.old) (length line.old) s.place s.size i }
    ensures { PlaneStepped high.now low.now held.old held.new work.old work.new s.place s.size i }
{
    let (even, odd) = line.split_at_mut(s.size.columns);
    steps::<false>(high, low, held, even, odd, s.size, i);
    if i < 2 {
        return;
    }
    let to = s.place.from + 2 * (i - 2) * s.place.stride;
    slices::copy_run(even, 0, work, to, s.size.columns);
    if i - 2 < s.size.lines / 2 {
        slices::copy_run(odd, 0, work, to + s.place.stride, s.size.columns);
    }
}

// Step i of a strip away from the ends of its columns: what it gives goes to two lines `stride` apart.
fn middle_step(
    high: &[i32],
    low: &[i64],
    held: &mut [[i64; 4]],
    lines: &mut [i64],
    stride: usize,
    b: ColumnsOf,
    i: usize,
)
    requires { StripStep high.now low.now held.old stride (length lines.old - stride) b i true × (stride ≤ length lines.old) }
    ensures { StripStepped high.now low.now held.old held.new (take stride lines.old) (take stride lines.new) (drop stride lines.old) (drop stride lines.new) b i }
{
    let (even, odd) = lines.split_at_mut(stride);
    steps::<true>(high, low, held, even, odd, b, i);
}

// Step i of a strip: it leaves lines 2 (i - 2) and 2 (i - 2) + 1 in the work area, as far as there are such lines.
fn strip_step(
    plane: &[i32],
    low: &[i64],
    held: &mut [[i64; 4]],
    work: &mut [i64],
    line: &mut [i64],
    s: Strip,
    i: usize,
)
    requires { PlaneStep (drop (high_place s.place s.size i) plane.now) low.now held.old (length work.old) (length line.old) s.place s.size i × (high_place s.place s.size i + s.size.columns ≤ length plane.now) }
    ensures { PlaneStepped (drop (high_place s.place s.size i) plane.now) low.now held.old held.new work.old work.new s.place s.size i }
{
    let highs = s.size.lines / 2;
    let high = &plane[s.place.from + ((s.size.lines + 1) / 2 + i.min(highs - 1)) * s.place.width..];
    if i < 2 || highs <= i {
        outer_step(high, low, held, work, line, s, i);
        return;
    }
    let lines = &mut work[s.place.from + 2 * (i - 2) * s.place.stride..];
    middle_step(high, low, held, lines, s.place.stride, s.size, i);
}

// A strip, inverted. Of each column four values are held in `state`, and after those the low of each that comes next.
fn inverse_strip(plane: &[i32], work: &mut [i64], state: &mut [i64], line: &mut [i64], s: Strip)
    requires { StripReady plane.now work.old (length line.old) s.place s.size × (5 * s.size.columns ≤ length state.old) }
    ensures { at work.new ≡ inverted s.place s.size.lowbits s.size.highbits s.size.columns s.size.lines (at plane.now) (at work.old) }
{
    let (held, next) = state.split_at_mut(4 * s.size.columns);
    let (held, _) = held.as_chunks_mut::<4>();
    let low = &mut next[..s.size.columns];
    // i numbers a step: two come after the last low
    for i in 0..(s.size.lines + 1) / 2 + 2 {
        feed(plane, work, low, s, i);
        strip_step(plane, low, held, work, line, s, i);
    }
}

// The low of column j of a single line.
fn single_low(plane: &[i32], work: &[i64], a: ColumnsAt, j: usize) -> i64
    requires { (a.from + j < length plane.now) × (a.from + j < length work.now) }
    ensures { result ≡ source a 1 (at plane.now) (at work.now) j 0 }
{
    if a.stored {
        plane[a.from + j] as i64
    } else {
        work[a.from + j]
    }
}

// w columns of a single line: each low, of lowbits bits, goes to the work area at the bits of a node; nothing is cut.
fn single_line(plane: &[i32], work: &mut [i64], a: ColumnsAt, w: usize, lowbits: u32)
    requires lies { Lies (length plane.now) (length work.old) a w 1 × (lowbits ≤ node_bits) }
    requires by_index { (j : ℕ) → j < w → nat_abs (source a 1 (at plane.now) (at work.old) j 0) ≤ limit }
    ensures { at work.new ≡ singles a lowbits w (at plane.now) (at work.old) }
{
    // the index names a column of the plane and one of the work area
    for j in 0..w {
        work[a.from + j] = scaled(single_low(plane, work, a, j), ONE, lowbits);
    }
}

// The columns, inverted strip by strip: a fifth as many at once as `state` has elements; a single line by itself.
pub fn columns(
    plane: &[i32],
    work: &mut [i64],
    state: &mut [i64],
    line: &mut [i64],
    a: ColumnsAt,
    b: ColumnsOf,
)
    requires lies { Lies (length plane.now) (length work.old) a b.columns b.lines × (5 ≤ length state.old) × (2 * length state.old ≤ 5 * length line.old) × (b.lowbits ≤ node_bits) × (b.highbits ≤ node_bits) }
    requires by_index { (j : ℕ) → j < b.columns → Safe b.lowbits b.highbits b.lines (source a b.lines (at plane.now) (at work.old) j) }
    ensures work { at work.new ≡ inverted a b.lowbits b.highbits b.columns b.lines (at plane.now) (at work.old) }
    ensures state { Free state.old state.new }
    ensures line { Free line.old line.new }
{
    if b.lines == 0 {
        return;
    }
    if b.lines == 1 {
        single_line(plane, work, a, b.columns, b.lowbits);
        return;
    }
    let room = state.len() / 5;
    let mut done = 0;
    // no plainer as a `step_by`: the strip's width needs the place all the same
    while done < b.columns {
        let s = room.min(b.columns - done);
        inverse_strip(
            plane,
            work,
            state,
            line,
            Strip {
                place: ColumnsAt {
                    from: a.from + done,
                    ..a
                },
                size: ColumnsOf { columns: s, ..b },
            },
        );
        done += s;
    }
}
