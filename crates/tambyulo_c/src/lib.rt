//! The map for programs in C, and in each language that can call C: `bindings/c/tambyulo.h` declares these functions.
//!
//! A map lies in memory of the caller's, at a pointer to as many bytes as `tambyulo_size` says, aligned to 8. The caller
//! never looks into it. Each export is one call of `c_map` on the map that lies there, and has that call's contract.
#![tactic(auto)]

mod exported_numbers;
mod exported_texts;

pub use exported_numbers::{
    tambyulo_clear, tambyulo_count_prefix, tambyulo_drop, tambyulo_fork, tambyulo_get,
    tambyulo_init, tambyulo_len, tambyulo_limit, tambyulo_page_from, tambyulo_put,
    tambyulo_put_if_absent, tambyulo_remove, tambyulo_remove_if, tambyulo_replace,
    tambyulo_replace_if, tambyulo_size,
};
pub use exported_texts::{
    tambyulo_texts_clear, tambyulo_texts_count_prefix, tambyulo_texts_drop, tambyulo_texts_fork,
    tambyulo_texts_get, tambyulo_texts_init, tambyulo_texts_len, tambyulo_texts_limit,
    tambyulo_texts_page_from, tambyulo_texts_put, tambyulo_texts_put_if_absent,
    tambyulo_texts_remove, tambyulo_texts_remove_if, tambyulo_texts_replace,
    tambyulo_texts_replace_if, tambyulo_texts_size,
};
