//! Which types cross threads.
use catalogue::{Call, Catalogue, Gift, Reply, Snap, SourceData};
use catalogue_hall::{Alone, Held, Named, Told};

fn crosses_threads<T: Send + Sync>() {}

#[test]
fn catalogues_cross_threads() {
    crosses_threads::<Catalogue>();
    crosses_threads::<Call>();
    crosses_threads::<Reply>();
    crosses_threads::<Gift>();
    crosses_threads::<Snap>();
    crosses_threads::<SourceData>();
}

#[test]
fn histories_cross_threads() {
    crosses_threads::<Alone>();
    crosses_threads::<Held>();
    crosses_threads::<Named>();
    crosses_threads::<Told>();
}
