//! The least and the greatest moment of each block of 64 cells, so that a mask with a least moment passes over whole blocks.
ghost use Rattle.std.specs.Prelude.{◌≡◌, ◌≤◌, length};
ghost use Rattle.gj_compact.specs.Spans.{AreSpans, Bounds};

/// Bounds of the moments of a block.
#[derive(Clone, Copy)]
pub struct Span {
    pub least: u64,
    pub greatest: u64,
}

/// The bounds of no moments.
pub const NO_SPAN: Span = Span {
    least: u64::MAX,
    greatest: 0,
};

/// The bounds of the moments from one place up to another.
fn span_of(moments: &[u64], from: usize, to: usize) -> Span
    requires { to ≤ length moments.now }
    ensures { Bounds result moments.now from to }
{
    let mut least = u64::MAX;
    let mut greatest = 0;
    for i in from..to {
        least = least.min(moments[i]);
        greatest = greatest.max(moments[i]);
    }
    Span { least, greatest }
}

/// Bounds the moments of each block.
pub fn span_blocks(spans: &mut [Span], moments: &[u64])
    requires { length spans.old ≤ 131073 }
    ensures { AreSpans spans.new moments.now }
{
    for b in 0..spans.len() {
        spans[b] = span_of(
            moments,
            moments.len().min(64 * b),
            moments.len().min(64 * b + 64),
        );
    }
}
