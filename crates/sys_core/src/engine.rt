// What steps work on.
use dl_base::Settings;
use fm_links::Claims;
use std::alloc::Global;
use sys_owners::Owners;
use sys_seats::Seats;

/// What the steps of the machine work on: the owners of the five areas, the claims of transactions by their paths, what is kept of
/// transactions that have not ended, the settings, and the moment, in seconds. Contracts see each as its own contracts do.
#[derive(Drop)]
pub struct Engine {
    pub alloc: Global,
    pub owners: Owners,
    pub claims: Claims,
    pub seats: Seats,
    pub settings: Settings,
    pub moment: u64,
}
