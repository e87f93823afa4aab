// A tree of numbers, that finds the first leaf that is great enough. Each node has the greatest number below it: the root is at 1, what
// is below a node at twice its index and one more, and the leaves come last. Nothing is at 0.

ghost use Rattle.std.specs.Prelude.{◌≡◌, ℕ, ◌^◌, ◌<◌, ◌≤◌, get_or, set, drop};
ghost use Rattle.seg_heap.specs.Gaps.{IsTree};

/// Writes a leaf, and what is above it.
pub fn set_leaf(nodes: &mut [u32], depth: u32, unit: usize, number: u32)
    requires small { depth ≤ 24 }
    requires tree { IsTree depth nodes.old }
    requires inside { unit < 2 ^ depth }
    ensures tree { IsTree depth nodes.new }
    ensures leaves { drop (2 ^ depth) nodes.new ≡ set (drop (2 ^ depth) nodes.old) unit number }
{
    let leaf = (1usize << depth) + unit;
    nodes[leaf] = number;
    let mut node = leaf;
    while node > 1 {
        node /= 2;
        nodes[node] = nodes[2 * node].max(nodes[2 * node + 1]);
    }
}

/// The first leaf that is so great, where the root is.
pub fn first_leaf(nodes: &[u32], depth: u32, count: u32) -> usize
    requires small { depth ≤ 24 }
    requires tree { IsTree depth nodes.now }
    requires some { count ≤ get_or nodes.now 1 0 }
    ensures inside { result < 2 ^ depth }
    ensures long { count ≤ get_or (drop (2 ^ depth) nodes.now) result 0 }
    ensures before { (unit : ℕ) → unit < result → get_or (drop (2 ^ depth) nodes.now) unit 0 < count }
{
    let mut node = 1usize;
    for _level in 0..depth {
        node *= 2;
        if nodes[node] < count {
            node += 1;
        }
    }
    node - (1usize << depth)
}
