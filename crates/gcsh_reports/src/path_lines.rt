//! The lines of a report.

ghost use Rattle.std.specs.Prelude.{◌≡◌, ◌++◌, OnOk, string_bytes};
ghost use Rattle.gcsh_reports.specs.PathLines.{line_text, parent_text, root_text};

use gc_commands::{Reply, ReplyValue, push_reply};
use gc_paths::PathParent;
use gc_store::RootName;
use std::alloc::AllocError;

/// Appends the line of an object: its number, where its path comes from, and what it is.
pub(crate) fn push_line(
    text: &mut String,
    number: usize,
    parent: &PathParent,
    value: ReplyValue,
) -> Result<(), AllocError>
    ensures { OnOk result (string_bytes text.new ≡ string_bytes text.old ++ line_text number parent.now value) }
{
    write!(text, "{number} ")?;
    push_parent(text, parent)?;
    text.push_str(" = ")?;
    push_reply(text, &Reply::Value(value))?;
    text.push_str("\n")
}

/// Appends where a path comes from.
fn push_parent(text: &mut String, parent: &PathParent) -> Result<(), AllocError>
    ensures { OnOk result (string_bytes text.new ≡ string_bytes text.old ++ parent_text parent.now) }
{
    match parent {
        PathParent::FromRoot(root) => push_root(text, root),
        PathParent::FromEntry { entry, index } => write!(text, "{entry} .{index}"),
    }
}

/// Appends a root.
fn push_root(text: &mut String, root: &RootName) -> Result<(), AllocError>
    ensures { OnOk result (string_bytes text.new ≡ string_bytes text.old ++ root_text root.now) }
{
    match root {
        RootName::Global(index) => write!(text, "global {index}"),
        RootName::Pending => text.push_str("pending"),
        RootName::Slot { frame, slot } => write!(text, "slot {frame} {slot}"),
        RootName::Owned(id) => write!(text, "owned {id}"),
        RootName::Scoped(index) => write!(text, "scoped {index}"),
    }
}
