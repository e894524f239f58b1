/// What a collection did, over the whole job.
#[derive(Clone, Copy, Debug, PartialEq, Eq)]
pub struct CollectSum {
    pub job: u64,
    /// How many digests it marked.
    pub marked: u64,
    /// How many of them were removed.
    pub collected: u64,
    /// How many were pushed or named since the mark.
    pub touched: u64,
    /// How many were left since a removal of them might still take effect, at the mark or at their turn.
    pub barred: u64,
    /// How many removals failed.
    pub failed: u64,
    /// How many bytes were removed.
    pub freed: u128,
}

/// What retention did, over the whole job.
#[derive(Clone, Copy, Debug, PartialEq, Eq)]
pub struct RetainSum {
    pub job: u64,
    /// How many tags its snapshot has.
    pub tags: u64,
    /// How many of them the rules kept.
    pub retained: u64,
    /// How many were dropped.
    pub dropped: u64,
    /// How many were immutable.
    pub immutable: u64,
    /// How many had changed since the snapshot.
    pub changed: u64,
}

/// What a job did, or has done so far.
#[derive(Clone, Copy, Debug, PartialEq, Eq)]
pub enum Sums {
    Collect(CollectSum),
    Retain(RetainSum),
}
