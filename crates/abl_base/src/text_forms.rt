//! The forms of values in texts as a parameter of the meaning: what the definitions of expressions
//! and statements ask of texts, without saying which texts these are. It depends on `abl_base`.
//! `value_formats` has the forms that are used (`text_forms`); `specs/TextForms.antt` says what a form
//! is asked.
