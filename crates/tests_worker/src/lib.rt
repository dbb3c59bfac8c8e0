//! Workers, the loader and the orders between them: nothing but tests. `ordering` tests `orders`, `queueing` tests
//! `load_orders`, and `serving` tests `workers`.
#![tactic(auto)]

#[cfg(test)]
mod ordering;
#[cfg(test)]
mod queueing;
#[cfg(test)]
mod serving;
