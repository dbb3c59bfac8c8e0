//! `clock_texts` and `queries` test `timetable`, `layouts` tests `image_layout`, `verifying` `image_verifier`, and
//! `writing` `image_writer`.

mod clock_texts;
mod layouts;
mod queries;
mod verifying;
mod writing;
