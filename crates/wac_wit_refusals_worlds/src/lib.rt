//! Whether what worlds include, import, export and need is refused with reason.
#![tactic(auto)]

mod brought;
mod coming;
mod cycles;
mod exports;
mod includes;
mod needed;
mod needed_twice;
mod needs;
mod said_twice;
mod sought_names;
mod worlds;

pub use brought::is_coming_twice;
pub use cycles::is_cycle;
pub use includes::is_unknown_rename;
pub use needed_twice::is_needed_twice;
pub use said_twice::is_said_twice;
