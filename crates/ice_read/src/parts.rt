//! Readers of the parts of a file, for crates that read files of another form with the same parts.
pub use crate::bidders::own_member;
pub use crate::exchange::{settings_member, take_goods_member};
pub use crate::file::value_of;
pub use crate::leaf::value_member;
pub use crate::values::{array_of, has_exactly, member, object_of, text_member, whole_of};
