//! Written texts as strings, which alone in this crate take memory.
ghost use Rattle.std.specs.Prelude.{◌≡◌, IfOk};
ghost use Rattle.std.specs.String.{string_bytes};
ghost use Rattle.pg_interval_2.specs.declared.style.Style.TheVariants.{Iso, Postgres, Verbose, Sql};
ghost use Rattle.pg_interval_2.specs.Styles.{style_text};

use crate::interval::Interval;
use crate::style::Style;
use std::alloc::{AllocError, Global};

impl Interval {
    /// The written text in the style `iso_8601`: `P1Y1M1DT1H`. `AllocError` where there is no memory for it.
    pub fn to_iso_8601(&self, alloc: Global) -> Result<String, AllocError>
        ensures { IfOk result (λ text. string_bytes text ≡ style_text Iso self.now) }
    {
        String::from_str(alloc, self.text(Style::Iso).as_str())
    }

    /// The written text in the style `postgres`: `1 year 1 mon 1 day 01:00:00`. `AllocError` where there is no memory for
    /// it.
    pub fn to_postgres(&self, alloc: Global) -> Result<String, AllocError>
        ensures { IfOk result (λ text. string_bytes text ≡ style_text Postgres self.now) }
    {
        String::from_str(alloc, self.text(Style::Postgres).as_str())
    }

    /// The written text in the style `postgres_verbose`: `@ 1 year 1 mon 1 day 1 hour`. `AllocError` where there is no
    /// memory for it.
    pub fn to_postgres_verbose(&self, alloc: Global) -> Result<String, AllocError>
        ensures { IfOk result (λ text. string_bytes text ≡ style_text Verbose self.now) }
    {
        String::from_str(alloc, self.text(Style::Verbose).as_str())
    }

    /// The written text in the style `sql_standard`: `+1-1 +1 +1:00:00`. `AllocError` where there is no memory for it.
    pub fn to_sql(&self, alloc: Global) -> Result<String, AllocError>
        ensures { IfOk result (λ text. string_bytes text ≡ style_text Sql self.now) }
    {
        String::from_str(alloc, self.text(Style::Sql).as_str())
    }
}
