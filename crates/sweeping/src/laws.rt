//! What a sweep does at a sound cloud, as a function whose contract is the law. It rests on the outcomes alone.

ghost use Rattle.sweeping.specs.Laws.{ASoundCloudIsFreedOfOldNames};

/// A sweep of a sound cloud is not refused: it drops exactly the names of older writes of the key, answers how many
/// they were, and leaves all other names and clouds.
pub fn a_sound_cloud_is_freed_of_old_names()
    ensures { ASoundCloudIsFreedOfOldNames }
{}
