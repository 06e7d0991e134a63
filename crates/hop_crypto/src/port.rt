// Jobs as a port sees them.

ghost use Rattle.hop_crypto.specs.Jobs.{IsWorkOf};

use crate::job::{Done, Job};
use tr_io::port_parts::{PortDone, PortJob};

impl PortJob for Job {
    ghost note = { λ job. job.note };
}

impl PortDone<Job> for Done {
    ghost note = { λ done. done.note };

    ghost is_of = { IsWorkOf };
}
