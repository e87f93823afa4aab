// Copies of the marks of bytes in a row. A part of a copy lies in one unit on each side.

ghost use Rattle.std.specs.Prelude.{◌≡◌, ◌+◌, ◌-◌, ◌*◌, ◌%◌, ◌<◌, ◌≤◌, length};
ghost use Rattle.shadow_segments.specs.Shadow.{with_copied};

use crate::Shadow;

impl Shadow {
    /// Copies the marks of `n` bytes as they stand, also if they overlap those copied to. If they are fewer than eight, pieces become loose.
    pub fn copy_marks(&mut self, from: u32, to: u32, n: u32)
        requires source { from + n ≤ 16 * length self.old.notes }
        requires target { to + n ≤ 16 * length self.old.notes }
        ensures { self.new ≡ with_copied self.old self.old.marks from to n }
    {
        if to <= from {
            self.copy_upward(from, to, n);
        } else {
            self.copy_downward(from, to, n);
        }
    }

    /// Copies the marks of `n` bytes of another shadow, in the same way.
    pub fn take_marks(&mut self, other: &Shadow, from: u32, to: u32, n: u32)
        requires source { from + n ≤ 16 * length other.now.notes }
        requires target { to + n ≤ 16 * length self.old.notes }
        ensures { self.new ≡ with_copied self.old other.now.marks from to n }
    {
        // A use of both lengths tells the check that no sum wraps.
        let _ = self.len();
        let _ = other.len();
        let mut done = 0;
        while done < n {
            let source = from + done;
            let target = to + done;
            let count = first_part(source, target, n - done);
            self.take_in(
                other,
                source as usize / 16,
                source % 16,
                target as usize / 16,
                target % 16,
                n,
                count,
            );
            done += count;
        }
    }

    fn copy_upward(&mut self, from: u32, to: u32, n: u32)
        requires order { to ≤ from }
        requires source { from + n ≤ 16 * length self.old.notes }
        ensures { self.new ≡ with_copied self.old self.old.marks from to n }
    {
        let _ = self.len();
        let mut done = 0;
        while done < n {
            let source = from + done;
            let target = to + done;
            let count = first_part(source, target, n - done);
            self.copy_in(
                source as usize / 16,
                source % 16,
                target as usize / 16,
                target % 16,
                n,
                count,
            );
            done += count;
        }
    }

    fn copy_downward(&mut self, from: u32, to: u32, n: u32)
        requires order { from ≤ to }
        requires target { to + n ≤ 16 * length self.old.notes }
        ensures { self.new ≡ with_copied self.old self.old.marks from to n }
    {
        let _ = self.len();
        let mut left = n;
        while left > 0 {
            let count = last_part(from + left, to + left, left);
            left -= count;
            let source = from + left;
            let target = to + left;
            self.copy_in(
                source as usize / 16,
                source % 16,
                target as usize / 16,
                target % 16,
                n,
                count,
            );
        }
    }
}

/// How many of the first of so many bytes lie in one unit on each side.
#[inline(always)]
fn first_part(source: u32, target: u32, n: u32) -> u32
    requires { 0 < n }
    ensures some { 0 < result }
    ensures most { result ≤ n }
    ensures unit { (source % 16 + result ≤ 16) × (target % 16 + result ≤ 16) }
{
    n.min(16 - source % 16).min(16 - target % 16)
}

/// How many of the last of so many bytes, which end here, lie in one unit on each side.
#[inline(always)]
fn last_part(source_end: u32, target_end: u32, n: u32) -> u32
    requires some { 0 < n }
    requires begun { (n ≤ source_end) × (n ≤ target_end) }
    ensures some { 0 < result }
    ensures most { result ≤ n }
    ensures unit { ((source_end - result) % 16 + result ≤ 16) × ((target_end - result) % 16 + result ≤ 16) }
{
    n.min((source_end - 1) % 16 + 1)
        .min((target_end - 1) % 16 + 1)
}
