//! `machine` tests `version_core`, `steps` and `plain_store` test `shelf_steps`, and `on_shelves` tests `shelves` and
//! `epochs`. `images` has the images that they publish.

mod images;
mod machine;
mod on_shelves;
mod plain_store;
mod steps;
