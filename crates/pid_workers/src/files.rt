//! The files that workers' jobs are read from, by their names.
ghost use Rattle.std.specs.Prelude.{◌≡◌, ◌≤◌, ◌↔◌, vec_len, IsSome, IfSome};

/// The names of 2 to 16 job files, in the order given. A name may come twice.
#[derive(Drop)]
pub struct JobFiles {
    names: Vec<String>,
    ghost count: { (2 ≤ vec_len names) × (vec_len names ≤ 16) },
}

impl JobFiles {
    /// The names, if they are 2 to 16.
    pub fn new(names: Vec<String>) -> Option<JobFiles>
        ensures when { IsSome result ↔ ((2 ≤ vec_len names) × (vec_len names ≤ 16)) }
        ensures names { IfSome result (λ files. files.names ≡ names) }
    {
        if names.len() < 2 || names.len() > 16 {
            return None;
        }
        Some(JobFiles { names })
    }

    /// The names.
    pub fn into_names(self) -> Vec<String>
        ensures { result ≡ self.names }
    {
        self.names
    }
}
