//! Why a text that spells no instances within the limits is refused.
pub(crate) mod excess;
pub(crate) mod fault;
pub(crate) mod form;
pub(crate) mod refusal;
pub(crate) mod scalar;
