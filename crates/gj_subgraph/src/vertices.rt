//! The vertices of one side, by numbers.

/// The side of some edges: its vertex for each edge, its vertices each once in the order of their first edges, how many
/// edges each of these has, and for each edge the number of its vertex among them.
#[derive(Drop)]
pub struct Vertices {
    pub side: Vec<u64>,
    pub names: Vec<u64>,
    pub degrees: Vec<u32>,
    pub places: Vec<u32>,
}
