//! Laws of what comes before an image's tree, of parts, and of coded samples.

pub use jxlm_groups::laws::{parts_hold_each_cell_once, parts_share_no_cell};
pub use jxlm_header::laws::each_opening_is_read_exactly;
pub use jxlm_samples::laws::{
    each_sample_has_one_token, each_sample_sees_what_is_before, what_is_coded_is_not_refused,
};
