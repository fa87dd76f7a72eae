mod reading;
mod replay;
mod sessions;
mod writing;

use mbj_text::TextFault;

/// The line and the field of a fault, and (0, 0) for a fault that names none.
fn place_of(fault: TextFault) -> (u32, u32) {
    match fault {
        TextFault::Line { line, field } => (line, field),
        TextFault::Limit { .. } | TextFault::Memory => (0, 0),
    }
}
