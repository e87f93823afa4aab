//! The labels whose bodies are open.

ghost use Rattle.std.specs.Prelude.{◌≡◌};
ghost use Rattle.c_lower.specs.Code.{behind_label};
ghost use Rattle.c_lower.specs.Labels.{open_labels};

/// The labels of the bodies around a statement, with how many instructions come after each body's end: a chain on the stack.
#[derive(Clone, Copy)]
pub enum Labels<'a> {
    Outside,
    Inside(&'a Labels<'a>, &'a [u8], usize),
}

/// How many instructions come after the end of the innermost body with this label.
pub fn behind_label(labels: &Labels<'_>, label: &[u8]) -> Option<usize>
    ensures { result ≡ behind_label (open_labels labels.now) label.now }
{
    match labels {
        Labels::Outside => None,
        Labels::Inside(outer, name, behind) => {
            if *name == label {
                Some(*behind)
            } else {
                behind_label(outer, label)
            }
        }
    }
}
