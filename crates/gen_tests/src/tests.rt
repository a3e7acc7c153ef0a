mod audited;
mod call;
mod made;
mod words;
