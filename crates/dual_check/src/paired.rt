//! Pairings with their prices.
use ride_model::ItemList;

/// A column for each row, or none.
pub type ColumnList = ItemList<Option<u32>>;

/// A number for each row or each column.
pub type NumberList = ItemList<u64>;

/// A pairing, with a price for each row and what each column pays.
pub struct Paired {
    pub columns: ColumnList,
    pub prices: NumberList,
    pub pays: NumberList,
}

impl Drop for Paired {
    fn drop(self) {
        let Paired {
            columns,
            prices,
            pays,
        } = self;
        drop(columns);
        drop(prices);
        drop(pays);
    }
}
