//! Drafts: the successors of many networks, listed before any of them is made.
ghost use Rattle.std.specs.Prelude.{◌≡◌, ◌<◌, All};
ghost use Rattle.network_table.specs.Networks.{IsWhole, Knows};

use crate::network::Network;
use crate::network_set::Entry;
use crate::table::NetworkTable;
use std::alloc::{AllocError, Global};

/// A network to expand, with the networks that are listed for its first free compound task.
#[derive(Clone, Copy, Drop)]
pub struct Job<'a> {
    pub network: u32,
    pub instances: &'a [Network],
}

/// A successor of a job's network that is not made yet: the node at the position is removed, and an instance of the
/// job, if any, takes its place.
#[derive(Clone, Copy, Drop)]
pub(crate) struct Draft {
    pub(crate) job: usize,
    pub(crate) position: usize,
    pub(crate) instance: Option<usize>,
}

/// A draft with a digest: drafts of one network have equal digests, and most others have different ones.
#[derive(Clone, Copy, Drop)]
pub(crate) struct Listed {
    pub(crate) draft: Draft,
    pub(crate) digest: u64,
}

/// A digest after further nodes.
fn digest_more(digest: u64, nodes: &[u32]) -> u64 {
    let mut digest = digest;
    for node in nodes {
        digest = digest
            .wrapping_mul(0x9e37_79b9_7f4a_7c15)
            .wrapping_add(u64::from(*node))
            .wrapping_add(1);
    }
    digest
}

/// The digest of a list of nodes in which others stand in the place of one; equal lists have equal digests.
fn digest_of(nodes: &[u32], position: usize, inner: &[u32]) -> u64 {
    let (before, rest) = nodes.split_at(position.min(nodes.len()));
    let digest = digest_more(digest_more(0, before), inner);
    let digest = match rest.split_first() {
        Some((_, after)) => digest_more(digest, after),
        None => digest,
    };
    digest ^ (digest >> 29)
}

/// The worker that makes the drafts of a digest.
pub(crate) fn shard_of(digest: u64, count: usize) -> usize
    requires { 0 < count }
{
    ((digest.wrapping_mul(0xd131_0ba6_98df_b5ad) >> 32) % count as u64) as usize
}

/// For each of `len` jobs the place of its first draft.
pub(crate) fn starts_of(
    alloc: Global,
    drafts: &[Listed],
    count: usize,
) -> Result<Vec<usize>, AllocError> {
    let mut starts = Vec::with_capacity(alloc, count)?;
    for at in 0..drafts.len() {
        while starts.len() <= drafts[at].draft.job && starts.len() < count {
            starts.push(at)?;
        }
    }
    Ok(starts)
}

impl NetworkTable {
    /// Lists the successors of a job's network.
    fn list_job(
        &self,
        alloc: Global,
        number: usize,
        job: Job,
        drafts: &mut Vec<Listed>,
    ) -> Result<(), AllocError>
        requires whole { IsWhole self.now }
        requires known { Knows self.now job.network }
    {
        let Entry::Whole(network) = self.entry(job.network) else {
            // A successor of a chain shares its nodes: it is made where it is numbered, and nothing is copied.
            return Ok(());
        };
        let nodes = network.nodes();
        match self.first_free_position(job.network) {
            Some(position) => {
                for (place, inner) in job.instances.iter().enumerate() {
                    let draft = Draft {
                        job: number,
                        position,
                        instance: Some(place),
                    };
                    let digest = digest_of(nodes, position, inner.nodes());
                    drafts.push(Listed { draft, digest })?;
                }
            }
            None => {
                let free = network.order().free_positions(alloc)?;
                for position in &free {
                    let draft = Draft {
                        job: number,
                        position: *position,
                        instance: None,
                    };
                    let digest = digest_of(nodes, *position, &[]);
                    drafts.push(Listed { draft, digest })?;
                }
            }
        }
        Ok(())
    }

    /// Lists the successors of the networks of those jobs whose expansions are not known.
    pub(crate) fn list_jobs(
        &self,
        alloc: Global,
        jobs: &[Job],
        first: usize,
        size: usize,
    ) -> Result<Vec<Listed>, AllocError>
        requires whole { IsWhole self.now }
        requires known { All (λ j. Knows self.now j.network) jobs.now }
    {
        let mut drafts = Vec::new(alloc);
        for number in first..first.saturating_add(size).min(jobs.len()) {
            let job = jobs[number];
            if self.expansion(job.network).is_none() {
                self.list_job(alloc, number, job, &mut drafts)?;
            }
        }
        Ok(drafts)
    }
}
