//! `values`, `rows`, `random_tables`, `positions`, `row_faults` and `rows_memory` test `gtfs_rows`; `joining` and `joining_memory`
//! test `gtfs_tables`; `files` tests `feed_files`, `days` `service_days`, `clocks` `feed_plans`, `listing` `transfers`,
//! `runs` `connections`, `closing` `footpaths`, and `loading` `feed_loader`. `failing` has files of which a read fails,
//! which two of these use, and `texts` has cases as texts.

mod clocks;
mod closing;
mod days;
mod failing;
mod files;
mod joining;
mod joining_memory;
mod listing;
mod loading;
mod positions;
mod random_tables;
mod row_faults;
mod rows;
mod rows_memory;
mod runs;
mod texts;
mod values;
